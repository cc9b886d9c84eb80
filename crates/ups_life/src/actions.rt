//! The action types of N-ACTION (PS3.4 table CC.2-1).

/// Change UPS State.
pub const CHANGE_STATE: u16 = 1;

/// Request UPS Cancel.
pub const REQUEST_CANCEL: u16 = 2;

/// Subscribe to Receive UPS Event Reports.
pub const SUBSCRIBE: u16 = 3;

/// Unsubscribe from Receiving UPS Event Reports.
pub const UNSUBSCRIBE: u16 = 4;

/// Suspend Global Subscription.
pub const SUSPEND: u16 = 5;
