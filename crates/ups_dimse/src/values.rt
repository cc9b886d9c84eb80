//! The values of the elements of a command set that messages have (PS3.7 sections 9.3 and 10.3).

ghost use Rattle.std.specs.Prelude.{[]};
ghost use Rattle.ups_dimse.specs.Sorted.{HasValues, Keeps};

use crate::numbers::{
    ACTION_TYPE, AFFECTED_CLASS, AFFECTED_INSTANCE, ATTRIBUTES, COMMAND_FIELD, DATA_SET_TYPE,
    EVENT_TYPE, MESSAGE_ID, PRIORITY, REQUESTED_CLASS, REQUESTED_INSTANCE, RESPONDED_TO, STATUS,
};

/// The values of the elements that messages have, each by its name; None for those that a command set does not have.
#[derive(Clone, Copy)]
pub(crate) struct CommandValues<'a> {
    pub affected_class: Option<&'a [u8]>,
    pub requested_class: Option<&'a [u8]>,
    pub command_field: Option<&'a [u8]>,
    pub message_id: Option<&'a [u8]>,
    pub responded_to: Option<&'a [u8]>,
    pub priority: Option<&'a [u8]>,
    pub data_set_type: Option<&'a [u8]>,
    pub status: Option<&'a [u8]>,
    pub affected_instance: Option<&'a [u8]>,
    pub requested_instance: Option<&'a [u8]>,
    pub event_type: Option<&'a [u8]>,
    pub attributes: Option<&'a [u8]>,
    pub action_type: Option<&'a [u8]>,
}

impl<'a> CommandValues<'a> {
    /// Returns the values of no elements.
    pub(crate) fn none() -> CommandValues<'a>
        ensures { HasValues [] result }
    {
        CommandValues {
            affected_class: None,
            requested_class: None,
            command_field: None,
            message_id: None,
            responded_to: None,
            priority: None,
            data_set_type: None,
            status: None,
            affected_instance: None,
            requested_instance: None,
            event_type: None,
            attributes: None,
            action_type: None,
        }
    }

    /// Keeps the value of an element, if messages have one with its number.
    pub(crate) fn keep(&mut self, number: u16, value: &'a [u8])
        ensures { Keeps number value.now self.old self.new }
    {
        match number {
            AFFECTED_CLASS => self.affected_class = Some(value),
            REQUESTED_CLASS => self.requested_class = Some(value),
            COMMAND_FIELD => self.command_field = Some(value),
            MESSAGE_ID => self.message_id = Some(value),
            RESPONDED_TO => self.responded_to = Some(value),
            PRIORITY => self.priority = Some(value),
            DATA_SET_TYPE => self.data_set_type = Some(value),
            STATUS => self.status = Some(value),
            AFFECTED_INSTANCE => self.affected_instance = Some(value),
            REQUESTED_INSTANCE => self.requested_instance = Some(value),
            EVENT_TYPE => self.event_type = Some(value),
            ATTRIBUTES => self.attributes = Some(value),
            ACTION_TYPE => self.action_type = Some(value),
            _ => {}
        }
    }
}
