//! Whether a text is the listing of the plan of objects.

ghost use Rattle.std.specs.Prelude.{◌≡◌, ℕ, List, IfOk, IfErr};
ghost use Rattle.std.specs.List.{AllByRecursion};
ghost use Rattle.wl_linking.specs.Steps.{Refuses};
ghost use Rattle.wl_words.specs.declared.args.WasmArgs.{WasmArgs as SpecArgs};
ghost use Rattle.wl_check.specs.Ranges.{InRange};
ghost use Rattle.wl_plan.specs.LinkPlan.{HasLinkFault};
ghost use Rattle.wl_plan.specs.PlanLines.{HasListing, lines_of};
ghost use Rattle.wl_plan.specs.declared.layout.LinkPlan.{LinkPlan as SpecPlan};
ghost use Rattle.wildplan.specs.Check.{IsChecked, IsVerdict, verdict_text, IsVerdictText};
ghost use Rattle.wildplan.specs.declared.check.Verdict.{Verdict as Said};

use std::alloc::{AllocError, Global};
use wl_check::{
    Line, ListingError, check_lines, differences_are_one, first_difference, listing_or_bad_line,
};
use wl_linking::LinkError;
use wl_plan::{LinkPlan, ObjectList, link_plan_or_fault, listing, plan_link, plans_have_listings};
use wl_words::WasmArgs;

/// What checking a text against the listing of a plan says.
#[derive(Drop)]
pub enum Verdict {
    /// The text is the listing of the plan.
    Same,
    /// The text is no listing: so many lines come before the first stretch that is none.
    Bad {
        line: usize,
    },
    /// The text is another listing. So many lines are those of the plan, and after these the one
    /// was found where the plan has the other: none where a listing has ended.
    Differs {
        line: usize,
        found: Option<Line>,
        want: Option<Line>,
    },
}

/// What checking a text against a plan says. Its lines are read one by one, and none is kept.
pub(crate) fn check_listing(
    alloc: Global,
    plan: &LinkPlan<'_>,
    text: &[u8],
) -> Result<Verdict, AllocError>
    requires { HasListing plan.now }
    ensures in_range { IfOk result (λ _. AllByRecursion InRange (lines_of plan.now)) }
    ensures verdict { IfOk result (IsVerdict plan.now text.now) }
{
    let want = listing(alloc, plan)?;
    // A text that is the listing isn't read again: its lines are known to be lines.
    if text == want.as_slice() {
        return Ok(Verdict::Same);
    }
    match check_lines(alloc, text) {
        Ok(()) => {}
        Err(ListingError::OutOfMemory) => return Err(AllocError),
        Err(ListingError::Bad { line }) => return Ok(Verdict::Bad { line }),
    }
    match first_difference(alloc, text, &want)? {
        None => Ok(Verdict::Same),
        Some(apart) => Ok(Verdict::Differs {
            line: apart.line,
            found: apart.found,
            want: apart.want,
        }),
    }
}

/// The line of a verdict.
fn verdict_text(alloc: Global, verdict: &Verdict) -> Result<Vec<u8>, AllocError>
    ensures { IfOk result (λ text. text.items ≡ verdict_text verdict.now) }
{
    let text = match verdict {
        Verdict::Same => String::from_str(alloc, "same\n")?,
        Verdict::Bad { line } => format!(in alloc; "bad {line}\n")?,
        Verdict::Differs { line, .. } => format!(in alloc; "differs {line}\n")?,
    };
    Ok(text.into_bytes())
}

/// The line of the verdict on a text and a plan.
///
/// # Errors
/// `AllocError` where memory runs out.
pub(crate) fn check_text(
    alloc: Global,
    plan: &LinkPlan<'_>,
    text: &[u8],
) -> Result<Vec<u8>, AllocError>
    requires { HasListing plan.now }
    ensures { IfOk result (λ line. IsVerdictText plan.now text.now line.items) }
{
    let verdict = check_listing(alloc, plan, text)?;
    verdict_text(alloc, &verdict)
}

/// Whether a text is the listing of the plan of these objects, and else where it isn't: a text that
/// is no listing has a first bad line, and any other differs from the listing at a first line. The
/// text and the listing are compared line by line.
///
/// # Errors
/// Those of [`plan_link`].
pub fn check_plan(
    alloc: Global,
    objects: &ObjectList,
    args: &WasmArgs,
    text: &[u8],
) -> Result<Verdict, LinkError>
    ensures verdict { IfOk result (IsChecked objects.now args.now text.now) }
    ensures err { IfErr result (Refuses (HasLinkFault objects.now args.now)) }
{
    plans_have_listings();
    objects.none_is_longer();
    let plan = plan_link(alloc, objects, args)?;
    Ok(check_listing(alloc, &plan, text)?)
}

/// A text and a plan have one verdict, and so have a text and the objects of a plan.
pub fn verdicts_are_one()
    ensures plan { (plan : SpecPlan) (text : List ℕ) (a b : Said)
        → AllByRecursion InRange (lines_of plan) → IsVerdict plan text a → IsVerdict plan text b
        → a ≡ b }
    ensures objects { (objects : List (List ℕ)) (args : SpecArgs) (text : List ℕ) (a b : Said)
        → IsChecked objects args text a → IsChecked objects args text b → a ≡ b }
{
    listing_or_bad_line();
    differences_are_one();
    link_plan_or_fault();
}
