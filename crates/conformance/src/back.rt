// Which messages are read back.

use buffa_fields::messages::message::members_read_back;
use buffa_map::map_codec::{Int32, MapCodec};
use buffa_wire::RECURSION_LIMIT;
use conformance_extensions::normal::Normal;
use conformance_extensions::written::are_written;
use sample_types::count::CountMsg;
use sample_types::flat::FlatMsg;
use sample_types::keep::BudgetMsg;
use sample_types::two::TestMsg;
use std::marker::PhantomData;

/// Says which samples are read back.
pub struct Back;

impl Normal<Back> for FlatMsg {
    fn is_normal(&self) -> bool {
        members_read_back(self);
        let _value = Int32::encoded_len(&self.value);
        true
    }
}

impl Normal<Back> for TestMsg {
    fn is_normal(&self) -> bool {
        members_read_back(self);
        let _a = Int32::encoded_len(&self.a);
        let _b = Int32::encoded_len(&self.b);
        true
    }
}

impl Normal<Back> for CountMsg {
    fn is_normal(&self) -> bool {
        let _count = self.count;
        true
    }
}

/// Says the same of messages that keep their fields. It has a parameter since the checker refuses the statement of the
/// impl below without one: "the import `denote.Param` was announced, and nothing of it was used".
pub struct Kept<T> {
    of: PhantomData<T>,
}

impl<T> Normal<Kept<T>> for BudgetMsg {
    fn is_normal(&self) -> bool {
        are_written(&self.fields, RECURSION_LIMIT)
    }
}
