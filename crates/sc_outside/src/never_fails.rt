//! Files and a sink that never fail.
ghost use Rattle.std.specs.Prelude.{◌≡◌, [], None, Some, unwrap_or};
ghost use Rattle.std.proofs.Common.{rules};
ghost use Rattle.sc_outside.specs.Memory.{content_in};
ghost use Rattle.sc_outside.specs.Pieces.{left_in, started_in};
ghost use Rattle.sc_outside.specs.Writes.{text_told};

use crate::faults::{FileFault, SinkFault};
use crate::memory::{bytes_in, copy_within};
use crate::started::Started;
use crate::traits::{Files, Sink};
use std::alloc::Global;
use std::collections::BTreeMap;

/// Wraps files, or a list of bytes to write to, and never fails. A name that isn't among the files
/// reads as no bytes.
#[derive(Drop)]
pub struct NeverFails<T> {
    inner: T,
    started: Option<Started>,
}

impl<T> NeverFails<T> {
    /// Wraps files or bytes.
    pub fn new(inner: T) -> NeverFails<T>
        ensures inner { result.inner ≡ inner }
        ensures started { result.started ≡ None }
    {
        NeverFails {
            inner,
            started: None,
        }
    }

    /// What is wrapped.
    pub fn get(&self) -> &T
        ensures { result.now ≡ self.now.inner }
    {
        &self.inner
    }
}

impl Files for NeverFails<BTreeMap<String, Vec<u8>>> {
    ghost content = { λ s name. Some (unwrap_or (content_in s.inner name) []) };

    ghost started = { λ s. started_in s.started };

    ghost left = { λ s. left_in (λ name. Some (unwrap_or (content_in s.inner name) [])) s.started };

    ghost faults = { λ _. 0 };

    ghost failed = { λ _. None };

    ghost bounded = { λ _. Prim.search rules };

    fn read(&mut self, alloc: Global, name: &str, limit: u64) -> Result<Vec<u8>, FileFault> {
        copy_within(alloc, bytes_in(&self.inner, name), limit)
    }

    fn start(&mut self, alloc: Global, name: &str) -> Result<(), FileFault> {
        self.started = Some(Started::new(String::from_str(alloc, name)?));
        Ok(())
    }

    #[tactic(auto, using(crate::proofs::PieceLaws::piece_of_file))]
    fn more(&mut self, alloc: Global, max: u64) -> Result<Vec<u8>, FileFault> {
        let Some(file) = &mut self.started else {
            return Ok(Vec::new(alloc));
        };
        let bytes = bytes_in(&self.inner, file.name());
        Ok(file.take(alloc, bytes, max)?)
    }
}

impl Sink for NeverFails<Vec<u8>> {
    ghost written = { λ s. text_told s.inner.items };

    ghost faults = { λ _. 0 };

    ghost bounded = { λ _. Prim.search rules };

    #[tactic(auto, using(crate::proofs::WriteLaws::text_more, crate::proofs::WriteLaws::text_same))]
    fn write(&mut self, piece: &[u8]) -> Result<(), SinkFault> {
        self.inner.extend_from_slice(piece)?;
        Ok(())
    }
}
