//! Images: modules that run.

ghost use Rattle.std.specs.Prelude.{◌≡◌, IfOk, IfErr, IsTrue};
ghost use Rattle.wl_load.specs.Loading.{AreFit, IsImageOf, LoadFault};
ghost use Rattle.wl_load.specs.Running.{can_run, Runs, run_of};

use crate::cells::Cells;
use crate::error::LoadError;
use crate::functions::read_functions;
use crate::memory::Memory;
use crate::parts::ImageParts;
use crate::program::Program;
use crate::run_end::RunEnd;
use crate::running::run;
use crate::store::Store;
use crate::types::TypeList;
use crate::values::have_types;
use std::alloc::Global;
use std::marker::Model;
use wl_numeric::Value;

/// A module that is ready to run. Clauses see it as what stays the same while it runs, and what
/// runs change: memory, globals and segments.
#[derive(Drop)]
pub struct Image {
    alloc: Global,
    program: Program,
    store: Store,
}

impl Model for Image {
    ghost use Rattle.wl_load.specs.Images.{LoadedImage};

    ghost Value = { LoadedImage };

    ghost view = { λ i. record { program = i.program; store = i.store } };
}

impl Image {
    /// The image of a module's parts, which have to fit together.
    ///
    /// # Errors
    /// `Body` for the first function whose body can't be decoded; where there is none, `Nesting`
    /// for the first one whose blocks don't nest. `OutOfMemory` where memory runs out, as which more
    /// than 4294967295 functions count, and a body of more than 1073741824 bytes.
    pub fn new(alloc: Global, parts: ImageParts) -> Result<Image, LoadError>
        requires { AreFit parts }
        ensures image { IfOk result (λ image. IsImageOf parts image) }
        ensures fault { IfErr result (LoadFault parts) }
    {
        let functions = read_functions(
            alloc,
            parts.hosts.as_slice().len(),
            parts.functions.as_slice(),
        )?;
        Ok(Image {
            alloc,
            program: Program {
                types: TypeList::new(alloc, parts.types)?,
                hosts: parts.hosts,
                functions,
                table: parts.table,
                maximum_pages: parts.maximum_pages,
                is_shared: parts.shared,
            },
            store: Store {
                memory: Memory::new(parts.memory),
                globals: Cells::new(parts.globals),
                segments: Cells::new(parts.segments),
            },
        })
    }

    /// The bytes of memory.
    pub fn memory(&self) -> &[u8]
        ensures { result.now ≡ self.now.store.memory }
    {
        self.store.memory.as_slice()
    }

    /// Whether a function is there, and these are arguments of the types of its parameters.
    pub fn can_run(&self, function: u32, arguments: &[Value]) -> bool
        ensures { result ≡ can_run self.now function arguments.now }
    {
        match self.program.type_of(function) {
            Some(ty) => have_types(arguments, ty.params()),
            None => false,
        }
    }

    /// Runs a function with arguments, where [`Image::can_run`] holds of them.
    ///
    /// A step takes one unit of fuel, whichever operator it does. How the run ends, its results and
    /// what it leaves are those of so many steps. Where memory runs out, the image is as the steps
    /// before left it. Fuel bounds neither the bytes that operators move nor the memory that is
    /// taken.
    pub fn run(&mut self, function: u32, arguments: &[Value], fuel: u64) -> RunEnd
        requires { IsTrue (can_run self.old function arguments.now) }
        ensures runs { Runs (run_of self.old function arguments.now) fuel result self.new.store }
        ensures kept { self.new.program ≡ self.old.program }
    {
        run(
            self.alloc,
            &self.program,
            &mut self.store,
            function,
            arguments,
            fuel,
        )
    }
}
