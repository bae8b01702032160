// Numbers, truth values, keys, kinds and texts.
use crate::Same;
use zb_model::{Key, NodeKind, PartitionId, Text};

impl Same for bool {
    fn is_same(&self, other: &bool) -> bool {
        *self == *other
    }
}

impl Same for u32 {
    fn is_same(&self, other: &u32) -> bool {
        *self == *other
    }
}

impl Same for u64 {
    fn is_same(&self, other: &u64) -> bool {
        *self == *other
    }
}

impl Same for i64 {
    fn is_same(&self, other: &i64) -> bool {
        *self == *other
    }
}

impl Same for Key {
    fn is_same(&self, other: &Key) -> bool {
        *self == *other
    }
}

impl Same for PartitionId {
    fn is_same(&self, other: &PartitionId) -> bool {
        *self == *other
    }
}

impl Same for NodeKind {
    fn is_same(&self, other: &NodeKind) -> bool {
        *self == *other
    }
}

impl Same for Text {
    fn is_same(&self, other: &Text) -> bool {
        self.as_str() == other.as_str()
    }
}
