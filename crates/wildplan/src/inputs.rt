//! What is planned: objects, what replaces some of them, and the text that is compared with the
//! listing. They are read from files, or objects are generated.

ghost use Rattle.std.specs.Prelude.{Some, None, false, ◌≡◌, ◌<◌, ◌≤◌, ◌^◌, ◌∷◌, [], ◌++◌, length, All, option_map, OnOk, IfOk, IfErr, MatchOption};
ghost use Rattle.wl_words.specs.Texts.{texts};
ghost use Rattle.wl_words.specs.Args.{IsArgs, object_names, replacing_names, compared_name};
ghost use Rattle.wl_words.specs.Modes.{IsFitMode, generates};
ghost use Rattle.wildplan.specs.Objects.{ReadsFront, AreInputsFor, inputs_read, text_in};
ghost use Rattle.wildplan.specs.Answers.{stop_of, IsNotTaken, StopsAmong, IsStopOf};

use crate::generate::generate;
use std::alloc::{AllocError, Global};
use std::marker::Model;
use wl_files::{Files, ReadObject, new_piece, read_with};
use wl_linking::Quantity;
use wl_plan::{MAX_OBJECT, ObjectList, PushError};
use wl_words::{Mode, WasmArgs};

/// Why the files weren't read: the number is that of the file, in the order in which they are read.
#[derive(Clone, Copy)]
pub(crate) enum Stop {
    OutOfMemory,
    ReadFault(usize),
    TooLarge(usize, Quantity),
}

impl From<AllocError> for Stop {
    ghost use Rattle.std.specs.Prelude.{◌≡◌};
    ghost use Rattle.wildplan.specs.declared.inputs.Stop.TheVariants.{OutOfMemory};

    ghost from_gives = { λ _ e. e ≡ OutOfMemory };

    fn from(_: AllocError) -> Self {
        Stop::OutOfMemory
    }
}

/// What was read, or generated.
#[derive(Drop)]
pub(crate) struct Inputs {
    /// The objects.
    pub(crate) objects: ObjectList,
    /// What replaces some of them, in the order of the words.
    pub(crate) replacing: ObjectList,
    compared: Option<Vec<u8>>,
}

impl Inputs {
    /// The text that is compared with the listing, if one is.
    pub(crate) fn compared(&self) -> Option<&[u8]>
        ensures { option_map (λ t. t.now) result ≡ text_in self.now.compared }
    {
        self.compared.as_deref()
    }
}

/// The name of a file.
#[derive(Drop)]
struct FileName<'n> {
    name: &'n str,
}

impl<'n> Model for FileName<'n> {
    ghost use Rattle.std.specs.Prelude.{List, ℕ};

    ghost Value = { List ℕ };

    ghost view = { λ f. f.name.now };
}

/// The names of the files that hold objects.
fn object_names<'n>(
    alloc: Global,
    words: &'n [String],
    args: &WasmArgs,
) -> Result<Vec<FileName<'n>>, AllocError>
    requires { All (λ word. word < length words.now) args.now.inputs }
    ensures names { IfOk result (λ names. names.items ≡ object_names (texts words.now) args.now) }
    ensures many { IfOk result (λ names. length names.items ≡ length args.now.inputs) }
{
    let inputs = args.inputs.as_slice();
    let mut names = Vec::with_capacity(alloc, inputs.len())?;
    for word in inputs {
        names.push(FileName {
            name: words[*word].as_str(),
        })?;
    }
    Ok(names)
}

/// The names of the files that replace objects.
fn replacing_names<'n>(
    alloc: Global,
    words: &'n [String],
    args: &WasmArgs,
) -> Result<Vec<FileName<'n>>, AllocError>
    ensures { IfOk result (λ names. names.items ≡ replacing_names (texts words.now) args.now) }
{
    let replacements = args.replacements.as_slice();
    let mut names = Vec::with_capacity(alloc, replacements.len())?;
    for replacement in replacements {
        names.push(FileName {
            name: replacement.name_in(words),
        })?;
    }
    Ok(names)
}

/// The name of the file that is compared with the listing, if one is.
fn compared_name(words: &[String], mode: Mode) -> Option<&str>
    ensures { MatchOption result
        (compared_name (texts words.now) mode ≡ None)
        (λ name. compared_name (texts words.now) mode ≡ Some name.now) }
{
    match mode {
        Mode::Check(file) => file.value_in(words),
        Mode::Listing | Mode::Generate(_) | Mode::Why | Mode::Map | Mode::Run(_) => None,
    }
}

/// Why the reading of the files ends at this one, which is to hold that.
fn stop_for(file: usize, what: Quantity, error: ReadObject) -> Stop
    ensures { result ≡ stop_of file what error }
{
    match error {
        ReadObject::OutOfMemory => Stop::OutOfMemory,
        ReadObject::Fault => Stop::ReadFault(file),
        ReadObject::TooLong => Stop::TooLarge(file, what),
    }
}

/// Takes in an object that was read from the file of that number.
fn take_in(objects: &mut ObjectList, file: usize, bytes: Vec<u8>) -> Result<(), Stop>
    ensures ok { OnOk result (objects.new ≡ objects.old ++ bytes.items ∷ []) }
    ensures err { IfErr result (IsNotTaken file bytes.items) }
{
    match objects.push(bytes) {
        Ok(()) => Ok(()),
        Err(PushError::OutOfMemory(_)) => Err(Stop::OutOfMemory),
        Err(PushError::TooLong(_)) => Err(Stop::TooLarge(file, Quantity::Object)),
    }
}

/// Reads each of these files to its end, through room that is lent. The first has that number.
fn gather<'n, F: Files<'n>>(
    alloc: Global,
    names: &[FileName<'n>],
    first: usize,
    files: &mut F,
    piece: &mut [u8],
) -> Result<ObjectList, Stop>
    requires room { 0 < length piece.old }
    requires numbered { first < 2 ^ 63 }
    ensures piece { length piece.new ≡ length piece.old }
    ensures ok { IfOk result (ReadsFront names.now (F.state files.old) (F.state files.new)) }
    ensures err { IfErr result
        (StopsAmong names.now first (F.state files.old) (F.state files.new)) }
{
    let mut objects = ObjectList::new(alloc);
    for (place, file) in names.iter().enumerate() {
        match read_with(alloc, files, piece, file.name, MAX_OBJECT) {
            Ok(bytes) => take_in(&mut objects, first + place, bytes)?,
            Err(error) => return Err(stop_for(first + place, Quantity::Object, error)),
        }
    }
    Ok(objects)
}

/// Reads the objects, after them what replaces some, and last the text that is compared with the
/// listing.
fn read_inputs<'n, F: Files<'n>>(
    alloc: Global,
    words: &'n [String],
    args: &WasmArgs,
    files: &mut F,
) -> Result<Inputs, Stop>
    requires within { All (λ word. word < length words.now) args.now.inputs }
    requires mode { generates args.now.mode ≡ false }
    ensures ok { IfOk result (λ inputs. AreInputsFor (texts words.now) args.now
        (F.state files.old) (F.state files.new) (inputs_read args.now inputs)) }
    ensures many { IfOk result (λ inputs. length args.now.inputs ≤ length inputs.objects) }
    ensures err { IfErr result (IsStopOf (texts words.now) args.now
        (F.state files.old) (F.state files.new)) }
{
    let mut room = new_piece(alloc)?;
    let piece = room.as_mut_slice();
    let named = object_names(alloc, words, args)?;
    let behind = replacing_names(alloc, words, args)?;
    let (named, behind) = (named.as_slice(), behind.as_slice());
    let objects = gather(alloc, named, 0, files, piece)?;
    let replacing = gather(alloc, behind, named.len(), files, piece)?;
    let Some(name) = compared_name(words, args.mode) else {
        return Ok(Inputs {
            objects,
            replacing,
            compared: None,
        });
    };
    match read_with(alloc, files, piece, name, MAX_OBJECT) {
        Ok(bytes) => Ok(Inputs {
            objects,
            replacing,
            compared: Some(bytes),
        }),
        Err(error) => {
            let place = named.len() + behind.len();
            Err(stop_for(place, Quantity::Listing, error))
        }
    }
}

/// What the words ask for: objects are generated, or all files are read.
pub(crate) fn inputs_for<'n, F: Files<'n>>(
    alloc: Global,
    words: &'n [String],
    args: &WasmArgs,
    files: &mut F,
) -> Result<Inputs, Stop>
    requires args { IsArgs (texts words.now) args.now }
    requires within { All (λ word. word < length words.now) args.now.inputs }
    requires mode { IsFitMode (texts words.now) args.now.mode }
    ensures ok { IfOk result (λ inputs. AreInputsFor (texts words.now) args.now
        (F.state files.old) (F.state files.new) (inputs_read args.now inputs)) }
    ensures many { IfOk result (λ inputs. length args.now.inputs ≤ length inputs.objects) }
    ensures err { IfErr result (IsStopOf (texts words.now) args.now
        (F.state files.old) (F.state files.new)) }
{
    let Mode::Generate(count) = args.mode else {
        return read_inputs(alloc, words, args, files);
    };
    let objects = generate(alloc, count)?;
    Ok(Inputs {
        objects,
        replacing: ObjectList::new(alloc),
        compared: None,
    })
}
