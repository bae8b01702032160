use zb_model::Key;
use zb_table::Row;

/// The version of the definition with a key.
#[derive(Clone, Copy)]
pub struct Defined {
    pub key: Key,
    pub version: u32,
}

impl Row for Defined {
    ghost key_in = { λ d. d.key };

    fn key(&self) -> Key {
        self.key
    }
}

/// A version of a process, and the definition that counts for it.
#[derive(Clone, Copy)]
pub struct Version {
    pub number: u32,
    pub definition: Key,
}

impl Row for Version {
    ghost key_in = { λ v. v.number };

    fn key(&self) -> Key {
        Key::new(u64::from(self.number))
    }
}
