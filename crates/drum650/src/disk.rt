//! Files of the system, by their names.

ghost use Rattle.std.specs.Prelude.{None};

use base_devices::{Input, Reading};
use read_documents::Source;
use std::fs::File;

/// The file system. No contract can tell what a file holds.
#[derive(Drop)]
pub struct Disk<'a> {
    pub rt: &'a HostRuntime,
    /// How many reads failed.
    pub failures: u64,
}

impl Source for Disk<'_> {
    type Text = Reading<File>;

    ghost files = { λ _ _ _. None };

    ghost failed = { λ disk. disk.failures };

    ghost asked = { λ _. None };

    fn fetch(&mut self, name: &str) -> Option<Reading<File>> {
        match File::open(self.rt, name) {
            Ok(file) => Some(Reading::new(file)),
            Err(_) => None,
        }
    }

    fn failures(&self) -> u64 {
        self.failures
    }

    fn close(&mut self, text: Reading<File>) {
        self.failures += text.failures();
    }
}
