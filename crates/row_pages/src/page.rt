ghost use Rattle.std.specs.Prelude.{◌≡◌, ◌↔◌, [], None, Some, IfOk, IsErr};
ghost use Rattle.std.specs.String.{string_bytes};
ghost use Rattle.hex.specs.Hex.{encode_upper};
ghost use Rattle.row_pages.specs.Pages.{Adds, AddsOutput};

use std::alloc::{AllocError, Global};
use std::fmt::Display;
use std::marker::Model;

/// The text that comes of a row. Once memory has run out it stays without what was to be added.
#[derive(Drop)]
pub struct Page {
    alloc: Global,
    text: String,
    failed: bool,
}

impl Model for Page {
    ghost use Rattle.std.specs.Prelude.{if◌then◌else◌, Option, None, Some, List, ℕ};
    ghost use Rattle.std.specs.String.{string_bytes};

    ghost Value = { Option (List ℕ) };

    ghost view = { λ page. if page.failed then None else Some (string_bytes page.text) };
}

impl Page {
    pub fn new(alloc: Global) -> Page
        ensures { result ≡ Some [] }
    {
        Page {
            alloc,
            text: String::new(alloc),
            failed: false,
        }
    }

    pub fn alloc(&self) -> Global {
        self.alloc
    }

    /// Notes that memory ran out.
    pub fn fail(&mut self)
        ensures { self.new ≡ None }
    {
        self.failed = true;
    }

    pub fn add(&mut self, text: &str)
        ensures { Adds self.old text.now self.new }
    {
        if self.text.push_str(text).is_err() {
            self.fail();
        }
    }

    /// Adds what `{}` prints.
    pub fn show<D: Display + Drop>(&mut self, value: D)
        ensures { AddsOutput self.old (D.output value) self.new }
    {
        match value.to_string(self.alloc) {
            Ok(text) => self.add(&text),
            Err(_) => self.fail(),
        }
    }

    /// Adds bytes in hexadecimal.
    pub fn add_hex(&mut self, bytes: &[u8])
        ensures { Adds self.old (encode_upper bytes.now) self.new }
    {
        match hex::encode_upper(self.alloc, bytes) {
            Ok(digits) => self.add(&digits),
            Err(_) => self.fail(),
        }
    }

    /// The text, if memory sufficed for all of it.
    pub fn into_text(self) -> Result<String, AllocError>
        ensures text { IfOk result (λ text. self ≡ Some (string_bytes text)) }
        ensures none { IsErr result ↔ (self ≡ None) }
    {
        if self.failed {
            return Err(AllocError);
        }
        Ok(self.text)
    }
}
