//! Texts under names.
use std::alloc::{AllocError, Global};

/// A text under a name.
#[derive(Drop)]
pub struct Named {
    name: String,
    bytes: Vec<u8>,
}

impl Named {
    pub fn name(&self) -> &str {
        self.name.as_str()
    }

    pub fn bytes(&self) -> &[u8] {
        &self.bytes
    }
}

/// Texts, each under a name of its own.
#[derive(Drop)]
pub struct Texts {
    alloc: Global,
    items: Vec<Named>,
}

impl Texts {
    pub fn new(alloc: Global) -> Texts {
        Texts {
            alloc,
            items: Vec::new(alloc),
        }
    }

    /// Begins a text, which is the last one then. One that stood under the name is dropped.
    pub fn begin(&mut self, name: &str) -> Result<(), AllocError> {
        self.items.retain(|text| text.name.as_str() != name);
        let name = String::from_str(self.alloc, name)?;
        let bytes = Vec::new(self.alloc);
        self.items.push(Named { name, bytes })?;
        Ok(())
    }

    /// Adds to the last text.
    pub fn add(&mut self, bytes: &[u8]) -> Result<(), AllocError> {
        if let Some(last) = self.items.last_mut() {
            last.bytes.extend_from_slice(bytes)?;
        }
        Ok(())
    }

    /// The bytes under a name.
    pub fn of(&self, name: &str) -> Option<&[u8]> {
        for text in &self.items {
            if text.name() == name {
                return Some(text.bytes());
            }
        }
        None
    }

    /// The name of the first text that is this one.
    pub fn alike(&self, bytes: &[u8]) -> Option<&str> {
        for text in &self.items {
            if text.bytes() == bytes {
                return Some(text.name());
            }
        }
        None
    }

    /// The name of the first text that begins with these bytes.
    pub fn begun_by(&self, bytes: &[u8]) -> Option<&str> {
        for text in &self.items {
            if text.bytes().starts_with(bytes) {
                return Some(text.name());
            }
        }
        None
    }

    pub fn items(&self) -> &[Named] {
        &self.items
    }
}
