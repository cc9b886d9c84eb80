//! The effects of indications.

ghost use Rattle.std.specs.Prelude.{◌≡◌, IfOk};

use std::alloc::{AllocError, Allocator};
use ups_assoc::AcceptedContext;
use ups_dimse::RequestCommand;
use ups_life::Ask;
use ups_pdu::{Ae, Pdu};

/// A request whose reply is awaited from the service, with what the response takes from it.
#[derive(Drop)]
pub(crate) struct AwaitedParts<A: Allocator + Copy> {
    /// The title of the AE in whose name it is made.
    pub ae: Ae,
    /// The request or the query. It is always there: the option is what `Service::answer` takes it from, without a copy.
    pub ask: Option<Ask<A>>,
    /// The longest P-DATA-TF that the peer receives, in bytes.
    pub max: u32,
    /// The presentation context of the request.
    pub context: AcceptedContext,
    /// The command of the request.
    pub command: RequestCommand<A>,
}

/// A request whose reply is awaited from the service. Its parts take some 350 bytes, which are passed on several times,
/// so they have a block of memory of their own, and are used where they lie.
#[derive(Drop)]
pub(crate) struct AwaitedRequest<A: Allocator + Copy> {
    /// The parts of the request.
    pub parts: Box<AwaitedParts<A>, A>,
}

impl<A: Allocator + Copy> AwaitedRequest<A> {
    /// Awaits the reply to a request.
    ///
    /// Errors: out of memory.
    pub fn new(alloc: A, parts: AwaitedParts<A>) -> Result<AwaitedRequest<A>, AllocError>
        ensures { IfOk result (λ w. w.parts.value ≡ parts) }
    {
        let parts = Box::new(alloc, parts)?;
        Ok(AwaitedRequest { parts })
    }
}

/// A response without a data set, which awaits nothing.
#[derive(Drop)]
pub(crate) struct BareResponse<A: Allocator + Copy> {
    /// The longest P-DATA-TF that the peer receives, in bytes.
    pub max: u32,
    /// The id of the presentation context.
    pub context: u8,
    /// The bytes of its command set.
    pub command: Vec<u8, A>,
}

/// The effect of an indication: what a party does. `C` is the type of its calls to the service.
#[derive(Drop)]
pub(crate) enum Effect<A: Allocator + Copy, C> {
    /// Sends these PDUs.
    Send(Vec<Pdu<A>, A>),
    /// Sends this response.
    Respond(BareResponse<A>),
    /// Calls the service.
    Call(C),
}
