//! The locals that a body declares.

ghost use Rattle.std.specs.Prelude.{◌≡◌, ◌≤◌, length};
ghost use Rattle.wl_bytes.specs.declared.reader.TheConstants.{MAX_LEN};
ghost use Rattle.wl_bytes.specs.Outcome.{Yields, Gives};
ghost use Rattle.wl_load.specs.LocalRuns.{with_locals, local_runs_at, runs_of};

use crate::code::LocalRun;
use std::alloc::Global;
use wl_bytes::{Item, ReadError, Reader, Why, read_list};
use wl_module::ValType;

impl<'a> Item<'a> for LocalRun {
    ghost use Rattle.wl_load.specs.LocalRuns.{local_run_at};

    type Under = ();

    ghost item_at = { λ _. local_run_at };

    #[tactic(auto, unfolding(crate::specs::LocalRuns::local_run_at, wl_ops::specs::Decoding::local_at))]
    fn read(_alloc: Global, _under: &mut (), reader: &mut Reader<'a>) -> Result<Self, ReadError> {
        let count = reader.read_u32()?;
        let byte = reader.read_u8()?;
        match ValType::from_byte(byte) {
            Some(value_type) => Ok(LocalRun { count, value_type }),
            None => Err(ReadError::Malformed(Why::BadByte)),
        }
    }
}

/// The local declarations that come first.
#[tactic(auto, using(wl_bytes::proofs::Loops::list_kept))]
fn read_all(alloc: Global, reader: &mut Reader<'_>) -> Result<Vec<LocalRun>, ReadError>
    ensures { Yields (λ v. v.items) result reader.new (local_runs_at reader.old) }
{
    read_list(alloc, (), reader)
}

/// The locals that a body declares.
pub(crate) fn read_locals(alloc: Global, body: &[u8]) -> Result<Vec<LocalRun>, ReadError>
    requires { length body.now ≤ MAX_LEN }
    ensures { Gives (λ v. v.items) result (runs_of body.now) }
{
    let mut reader = Reader::new(body);
    read_all(alloc, &mut reader)
}

/// The runs of locals that are declared; a declaration of none declares no run.
pub(crate) fn with_locals(mut runs: Vec<LocalRun>) -> Vec<LocalRun>
    ensures { result.items ≡ with_locals runs.items }
{
    runs.retain(|run| run.count != 0);
    runs
}
