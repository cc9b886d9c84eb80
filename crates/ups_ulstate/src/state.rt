//! The states, events and actions of the state machine.

/// A state of an association (PS3.8 section 9.2.1).
#[derive(Clone, Copy, Debug, PartialEq, Eq)]
pub enum UlState {
    /// Idle.
    Sta1,
    /// Transport connection open, awaiting A-ASSOCIATE-RQ PDU.
    Sta2,
    /// Awaiting local A-ASSOCIATE response primitive, from the local user.
    Sta3,
    /// Awaiting transport connection opening to complete, from the local transport service.
    Sta4,
    /// Awaiting A-ASSOCIATE-AC or A-ASSOCIATE-RJ PDU.
    Sta5,
    /// Association established and ready for data transfer.
    Sta6,
    /// Awaiting A-RELEASE-RP PDU.
    Sta7,
    /// Awaiting local A-RELEASE response primitive, from the local user.
    Sta8,
    /// Release collision, requestor side: awaiting A-RELEASE response, from the local user.
    Sta9,
    /// Release collision, acceptor side: awaiting A-RELEASE-RP PDU.
    Sta10,
    /// Release collision, requestor side: awaiting A-RELEASE-RP PDU.
    Sta11,
    /// Release collision, acceptor side: awaiting A-RELEASE response, from the local user.
    Sta12,
    /// Awaiting transport connection close indication: the association no longer exists.
    Sta13,
}

/// An event of an association: the rows of PS3.8 table 9-10, in their order.
#[derive(Clone, Copy, Debug, PartialEq, Eq)]
pub enum UlEvent {
    /// A-ASSOCIATE request primitive, from the local user.
    AssociateRequest,
    /// Transport connection confirmation, from the local transport service.
    TransportConfirmed,
    /// A-ASSOCIATE-AC PDU, received on the transport connection.
    AssociateAc,
    /// A-ASSOCIATE-RJ PDU, received on the transport connection.
    AssociateRj,
    /// Transport connection indication, from the local transport service.
    TransportIndication,
    /// A-ASSOCIATE-RQ PDU, received on the transport connection.
    AssociateRq,
    /// A-ASSOCIATE response primitive that accepts, from the local user.
    LocalAccept,
    /// A-ASSOCIATE response primitive that rejects, from the local user.
    LocalReject,
    /// P-DATA request primitive, from the local user.
    DataRequest,
    /// P-DATA-TF PDU, received on the transport connection.
    Data,
    /// A-RELEASE request primitive, from the local user.
    ReleaseRequest,
    /// A-RELEASE-RQ PDU, received on the transport connection.
    ReleaseRq,
    /// A-RELEASE-RP PDU, received on the transport connection.
    ReleaseRp,
    /// A-RELEASE response primitive, from the local user.
    ReleaseResponse,
    /// A-ABORT request primitive, from the local user.
    AbortRequest,
    /// A-ABORT PDU, received on the transport connection.
    Abort,
    /// Transport connection closed indication, from the local transport service.
    TransportClosed,
    /// ARTIM timer expired: the time for an association request, a rejection or a release is over.
    TimerExpired,
    /// Unrecognized or invalid PDU, received on the transport connection.
    Invalid,
}

/// An action at an event: associate actions (PS3.8 table 9-6), data transfer actions (table 9-7), release actions
/// (table 9-8) and abort actions (table 9-9).
#[derive(Clone, Copy, Debug, PartialEq, Eq)]
pub enum UlAction {
    /// AE-1: issue TRANSPORT CONNECT request primitive to the local transport service.
    Ae1,
    /// AE-2: send A-ASSOCIATE-RQ PDU.
    Ae2,
    /// AE-3: issue A-ASSOCIATE confirmation (accept) primitive.
    Ae3,
    /// AE-4: issue A-ASSOCIATE confirmation (reject) primitive and close transport connection.
    Ae4,
    /// AE-5: issue transport connection response primitive; start ARTIM timer.
    Ae5,
    /// AE-6: stop ARTIM timer. If the A-ASSOCIATE-RQ is acceptable by the service provider, issue
    /// A-ASSOCIATE indication primitive; otherwise issue A-ASSOCIATE-RJ PDU and start ARTIM timer.
    Ae6,
    /// AE-7: send A-ASSOCIATE-AC PDU.
    Ae7,
    /// AE-8: send A-ASSOCIATE-RJ PDU and start ARTIM timer.
    Ae8,
    /// DT-1: send P-DATA-TF PDU.
    Dt1,
    /// DT-2: send P-DATA indication primitive.
    Dt2,
    /// AR-1: send A-RELEASE-RQ PDU.
    Ar1,
    /// AR-2: issue A-RELEASE indication primitive.
    Ar2,
    /// AR-3: issue A-RELEASE confirmation primitive and close transport connection.
    Ar3,
    /// AR-4: issue A-RELEASE-RP PDU and start ARTIM timer.
    Ar4,
    /// AR-5: stop ARTIM timer.
    Ar5,
    /// AR-6: issue P-DATA indication.
    Ar6,
    /// AR-7: issue P-DATA-TF PDU.
    Ar7,
    /// AR-8: issue A-RELEASE indication (release collision).
    Ar8,
    /// AR-9: send A-RELEASE-RP PDU.
    Ar9,
    /// AR-10: issue A-RELEASE confirmation primitive.
    Ar10,
    /// AA-1: send A-ABORT PDU (service-user source) and start, or restart, ARTIM timer.
    Aa1,
    /// AA-2: stop ARTIM timer if running; close transport connection.
    Aa2,
    /// AA-3: issue A-ABORT indication if the service user aborts, A-P-ABORT indication if the service provider does,
    /// and close transport connection.
    Aa3,
    /// AA-4: issue A-P-ABORT indication primitive.
    Aa4,
    /// AA-5: stop ARTIM timer.
    Aa5,
    /// AA-6: ignore PDU.
    Aa6,
    /// AA-7: send A-ABORT PDU.
    Aa7,
    /// AA-8: send A-ABORT PDU (service-provider source), issue A-P-ABORT indication and start ARTIM timer.
    Aa8,
}
