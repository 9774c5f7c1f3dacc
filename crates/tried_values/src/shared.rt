//! Texts and bytes that several own.

use jm_base::Refusal;
use jm_shared::{SharedBytes, SharedStr};
use std::alloc::Global;
use tried::{Answer, Called, Made, Trial, tell, two};

/// A text and bytes.
#[derive(Drop)]
struct Shared {
    alloc: Global,
    number: usize,
    text: SharedStr,
    bytes: SharedBytes,
}

fn from_str(alloc: Global) -> Answer {
    Ok(SharedStr::from_str(alloc, "text")?.as_str().len() as u64)
}

fn from_string(alloc: Global) -> Answer {
    let text = String::from_str(alloc, "texts")?;
    Ok(SharedStr::from_string(text)?.as_str().len() as u64)
}

fn from_slice(alloc: Global) -> Answer {
    Ok(SharedBytes::from_slice(alloc, &[0, 255])?.as_bytes().len() as u64)
}

fn from_vec(alloc: Global) -> Answer {
    let bytes = Vec::from_slice(alloc, &[0, 1, 255])?;
    Ok(SharedBytes::from_vec(bytes)?.as_bytes().len() as u64)
}

fn copied_text(text: &SharedStr) -> Answer {
    Ok(text.copy()?.as_str().len() as u64)
}

fn copied_bytes(bytes: &SharedBytes) -> Answer {
    Ok(bytes.copy()?.as_bytes().len() as u64)
}

impl Shared {
    fn new(alloc: Global, number: usize) -> Result<Shared, Refusal> {
        Ok(Shared {
            alloc,
            number,
            text: SharedStr::from_str(alloc, "a text")?,
            bytes: SharedBytes::from_slice(alloc, &[7])?,
        })
    }
}

impl Trial for Shared {
    /// The lengths of the text and of the bytes.
    fn state(&self) -> u64 {
        two(self.text.as_str().len(), self.bytes.as_bytes().len())
    }

    fn call(&mut self) -> Called {
        match self.number {
            0 => Called {
                name: "jm_shared SharedStr::from_str",
                answer: from_str(self.alloc),
            },
            1 => Called {
                name: "jm_shared SharedStr::from_string",
                answer: from_string(self.alloc),
            },
            2 => Called {
                name: "jm_shared SharedStr::copy",
                answer: copied_text(&self.text),
            },
            3 => Called {
                name: "jm_shared SharedBytes::from_slice",
                answer: from_slice(self.alloc),
            },
            4 => Called {
                name: "jm_shared SharedBytes::from_vec",
                answer: from_vec(self.alloc),
            },
            5 => Called {
                name: "jm_shared SharedBytes::copy",
                answer: copied_bytes(&self.bytes),
            },
            _ => Called::NONE,
        }
    }
}

/// Makes the call of that number.
pub fn made(alloc: Global, number: usize) -> Made {
    tell(Shared::new(alloc, number))
}
