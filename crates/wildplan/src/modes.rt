//! What is planned and what is written, by the mode that the words ask for.

ghost use Rattle.std.specs.Prelude.{◌≡◌, ◌<◌, [], length, All, option_map, unwrap_or, IfOk, IfErr};
ghost use Rattle.wl_linking.specs.Steps.{Clear, Refuses};
ghost use Rattle.wl_symbols.specs.Link.{link_of};
ghost use Rattle.wl_plan.specs.Faults.{link_fault};
ghost use Rattle.wl_plan.specs.LinkPlan.{IsPlanOf};
ghost use Rattle.wl_why.specs.Text.{IsWhyText};
ghost use Rattle.wl_words.specs.Modes.{placed_value};
ghost use Rattle.wl_words.specs.Texts.{texts};
ghost use Rattle.wildplan.specs.Modes.{planned_args, IsTextOf, IsPlanText};
ghost use Rattle.wildplan.specs.Objects.{inputs_read};
ghost use Rattle.wildplan.specs.Replacing.{HasPlanFault};

use crate::check::check_text;
use crate::inputs::Inputs;
use crate::loadable::plans_can_be_loaded;
use crate::map::link_map;
use crate::replacing::session_after;
use crate::running::run_text;
use crate::summary::summary;
use std::alloc::{AllocError, Global};
use std::mem;
use wl_linking::{FileList, LinkError};
use wl_lists::Text;
use wl_live::collect_live;
use wl_plan::{LinkPlan, ObjectList, listing, parse_objects, plan_files, plans_have_listings};
use wl_symbols::SymbolTable;
use wl_why::why_text;
use wl_words::{Mode, ValuePlace, WasmArgs};

/// The words that are planned: where objects are generated, the first of them is the entry.
pub(crate) fn planned_args(alloc: Global, args: WasmArgs) -> Result<WasmArgs, AllocError>
    ensures { IfOk result (λ planned. planned ≡ planned_args args) }
{
    let mut planned = args;
    if planned.mode.generates() {
        planned.entry = Some(Text::new(String::from_str(alloc, "f0")?));
    }
    Ok(planned)
}

/// Why the units of objects that have a plan are kept. What is kept is found once more, for a plan
/// doesn't hold it.
fn why_planned(alloc: Global, files: &FileList<'_>, args: &WasmArgs) -> Result<Vec<u8>, LinkError>
    requires { Clear (link_fault (link_of files.now args.now)) }
    ensures ok { IfOk result (λ text. IsWhyText (link_of files.now args.now) text.items) }
    ensures err { IfErr result (Refuses (λ _. ⊥)) }
{
    let symbols = SymbolTable::build(alloc, files, args)?;
    let live = collect_live(alloc, files, &symbols, args)?;
    Ok(why_text(alloc, files, &symbols, args, &live)?)
}

/// The name that stands in this place of the words.
fn name_at(words: &[String], place: ValuePlace) -> &str
    ensures { result.now ≡ unwrap_or (placed_value (texts words.now) place) [] }
{
    place.value_in(words).unwrap_or("")
}

/// The text that is compared with the listing.
fn text_of(compared: Option<&[u8]>) -> &[u8]
    ensures { result.now ≡ unwrap_or (option_map (λ t. t.now) compared.entry) [] }
{
    compared.unwrap_or(&[])
}

/// What is written of the plan of objects, by the mode of the words, and the text that is compared
/// with the listing, if one is.
fn mode_text(
    alloc: Global,
    files: &FileList<'_>,
    args: &WasmArgs,
    plan: &LinkPlan<'_>,
    words: &[String],
    compared: Option<&[u8]>,
) -> Result<Vec<u8>, LinkError>
    requires { IsPlanOf (link_of files.now args.now) plan.now }
    ensures ok { IfOk result (λ text. IsTextOf (texts words.now)
        (option_map (λ t. t.now) compared.entry) args.now.mode
        (link_of files.now args.now) plan.now text.items) }
    ensures err { IfErr result (Refuses (λ _. ⊥)) }
{
    plans_have_listings();
    plans_can_be_loaded();
    // As a slice the objects are known to be whole.
    let _objects = files.as_slice();
    match args.mode {
        Mode::Listing => Ok(listing(alloc, plan)?),
        Mode::Generate(_) => Ok(summary(alloc, plan)?),
        Mode::Why => why_planned(alloc, files, args),
        Mode::Map => Ok(link_map(alloc, plan)?),
        Mode::Check(_) => Ok(check_text(alloc, plan, text_of(compared))?),
        Mode::Run(function) => Ok(run_text(alloc, plan, name_at(words, function))?),
    }
}

/// How many bytes objects have whose memory is given back before the listing is made, for the
/// listing is large then too.
const LARGE: usize = 1 << 20;

/// How many bytes objects have. It says what to do with memory, and nothing else rests on it.
fn byte_count(objects: &ObjectList) -> usize {
    let mut count: usize = 0;
    for object in 0..objects.len() {
        if let Some(bytes) = objects.get(object) {
            count = count.saturating_add(bytes.len());
        }
    }
    count
}

/// Gives back the memory of what objects hold, where that is much. Where it is little, the end of
/// the program gives it back, and faster.
fn release(files: FileList<'_>, objects: &ObjectList) {
    if byte_count(objects) >= LARGE {
        drop(files);
    } else {
        mem::forget(files);
    }
}

/// What is written of the plan of objects, none of which is replaced.
fn objects_text(
    alloc: Global,
    inputs: &Inputs,
    args: &WasmArgs,
    words: &[String],
) -> Result<Vec<u8>, LinkError>
    requires { args.now.replacements ≡ [] }
    ensures ok { IfOk result (λ text. IsPlanText (texts words.now) (inputs_read args.now inputs.now)
        args.now text.items) }
    ensures err { IfErr result (Refuses (HasPlanFault (inputs_read args.now inputs.now) args.now)) }
{
    let files = parse_objects(alloc, &inputs.objects)?;
    let plan = plan_files(alloc, &files, args)?;
    match args.mode {
        Mode::Listing => {
            // The listing needs nothing of the objects.
            release(files, &inputs.objects);
            let text = listing(alloc, &plan)?;
            // The program ends soon, and gives all back at once.
            mem::forget(plan);
            Ok(text)
        }
        Mode::Generate(_) | Mode::Why | Mode::Map | Mode::Check(_) | Mode::Run(_) => mode_text(
            alloc,
            &files,
            args,
            &plan,
            words,
            inputs.compared(),
        ),
    }
}

/// What is written of the plan of objects, once each replacement was done.
fn replaced_text(
    alloc: Global,
    inputs: &Inputs,
    args: &WasmArgs,
    words: &[String],
) -> Result<Vec<u8>, LinkError>
    requires { All (λ r. r.object < length inputs.now.objects) args.now.replacements }
    ensures ok { IfOk result (λ text. IsPlanText (texts words.now) (inputs_read args.now inputs.now)
        args.now text.items) }
    ensures err { IfErr result (Refuses (HasPlanFault (inputs_read args.now inputs.now) args.now)) }
{
    let session = session_after(alloc, inputs, args)?;
    let plan = session.plan(alloc)?;
    mode_text(
        alloc,
        session.files(),
        args,
        &plan,
        words,
        inputs.compared(),
    )
}

/// What is written of the plan of what was given.
///
/// # Errors
/// In each mode, what `plan_link` refuses of the objects once each replacement was done, and an
/// object or a replacement that isn't in the grammar or has a form that isn't taken.
pub(crate) fn plan_text(
    alloc: Global,
    inputs: &Inputs,
    args: &WasmArgs,
    words: &[String],
) -> Result<Vec<u8>, LinkError>
    requires { All (λ r. r.object < length inputs.now.objects) args.now.replacements }
    ensures ok { IfOk result (λ text. IsPlanText (texts words.now) (inputs_read args.now inputs.now)
        args.now text.items) }
    ensures err { IfErr result (Refuses (HasPlanFault (inputs_read args.now inputs.now) args.now)) }
{
    if args.replacements.as_slice().is_empty() {
        // What a session keeps for later plans isn't made for one plan.
        objects_text(alloc, inputs, args, words)
    } else {
        replaced_text(alloc, inputs, args, words)
    }
}
