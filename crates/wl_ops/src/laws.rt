//! What callers may count on: functions with an empty body, each of which states a law of what
//! bodies spell.

ghost use Rattle.std.specs.Prelude.{◌≡◌, ◌≤◌, ◌↔◌, ℕ, List, [], length, Option, Ok, IsTrue};
ghost use Rattle.std.specs.List.{list_any};
ghost use Rattle.wl_bytes.specs.Grammar.{Items};
ghost use Rattle.wl_bytes.specs.Lists.{AreFew, start};
ghost use Rattle.wl_bytes.specs.declared.read_error.ReadError.{ReadError as Fault};
ghost use Rattle.wl_bytes.specs.Outcome.{AreAlternatives};
ghost use Rattle.wl_module.specs.declared.constants.ConstOperator.{ConstOperator};
ghost use Rattle.wl_module.specs.Constants.{operator_code, IsOperator};
ghost use Rattle.wl_ops.specs.declared.op.Op.{Op as OpRecord};
ghost use Rattle.wl_ops.specs.Decoding.{AreOps, AreTaken, DecodeFault, list_items, body_of};
ghost use Rattle.wl_ops.specs.declared.op.DataIndexImm.{DataIndexImm as Number};
ghost use Rattle.wl_ops.specs.Expressions.{takes_index, HasReference};
ghost use Rattle.wl_ops.specs.Operators.{IsTaken};
ghost use Rattle.wl_ops.specs.Numbers.{HasNumbers, AreTold, NumbersFault};
ghost use Rattle.wl_ops.specs.Rewriting.{LieWithin, Rewrites};
ghost use Rattle.wl_ops.specs.Standing.{Keeps};

/// Each body is decoded to one list of operators or has one fault, and never both.
pub fn operators_or_fault()
    ensures { AreAlternatives AreTaken DecodeFault }
{}

/// Each body has one list of numbers or one fault that is reported, and never both.
pub fn numbers_or_fault()
    ensures { AreAlternatives AreTold NumbersFault }
{}

/// A body has one list of numbers of data segments, which lie in it one after the other. One that
/// isn't decoded has none.
pub fn numbers_are_one()
    ensures one { (body : List ℕ) (numbers others : List Number)
        → HasNumbers numbers body → HasNumbers others body → numbers ≡ others }
    ensures within { (body : List ℕ) (numbers : List Number)
        → HasNumbers numbers body → LieWithin 0 numbers (length body) }
    ensures none { (body : List ℕ) (e : Fault) → NumbersFault e body → HasNumbers [] body }
{}

/// A body spells one list of operators at most, also where some of them are refused.
pub fn operators_are_one()
    ensures { (ops other : List OpRecord) (body : List ℕ)
        → AreOps ops body → AreOps other body → ops ≡ other }
{}

/// The operators that reading a body computes are those that it spells: so the operators of bytes
/// that are written out can be computed.
pub fn computed_operators_are_spelled()
    ensures { (ops : List OpRecord) (body : List ℕ) → body_of body ≡ Ok ops → AreTaken ops body }
{}

/// A body has at least as many bytes as operators and immediates together.
pub fn operators_are_few()
    ensures operators { AreFew AreTaken }
    ensures values { (ops : List OpRecord) (body : List ℕ)
        → AreTaken ops body → list_items ops ≤ length body }
{}

/// A body whose numbers of data segments are rewritten keeps its operators but for these numbers,
/// and the bytes of each field that overlaps none, each in the operator, or in the local
/// declarations, in which it stood.
pub fn rewriting_keeps_operators()
    ensures { (new : ℕ → Option ℕ) (numbers : List Number) (body other : List ℕ)
        → HasNumbers numbers body → Rewrites new 0 numbers body other
        → Keeps new numbers body other }
{}

/// A constant expression, as the readers of globals and of segments take it, is one of operators of
/// the table, wherever it is read. One of them takes the index of a global or of a function exactly
/// where `global.get` or `ref.func` is among those that its reader found.
pub fn constant_operators_are_operators()
    ensures operators { (place other : ℕ) (o : ConstOperator) (text : List ℕ)
        → IsOperator place o text
        → (op : OpRecord) × IsTaken other op text × (op.code ≡ operator_code o) }
    ensures references { (place : ℕ) (os : List ConstOperator) (body : List ℕ)
        → Items IsOperator place os body
        → (HasReference (start body) ↔ IsTrue (list_any takes_index os)) }
{}
