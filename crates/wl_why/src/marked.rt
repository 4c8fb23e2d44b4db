//! Marks that are set one after the other.

ghost use Rattle.std.specs.Prelude.{◌≡◌, ◌<◌, length};
ghost use Rattle.std.specs.Option.{ForSome};
ghost use Rattle.wl_live.specs.Numbering.{with_mark};

use wl_reach::Marks;

/// Sets the mark of the place, if there is one.
pub(crate) fn mark(marks: &mut Marks, place: Option<usize>)
    requires { ForSome place (λ k. k < length marks.old) }
    ensures { marks.new ≡ with_mark marks.old place }
{
    if let Some(place) = place {
        marks.set(place);
    }
}
