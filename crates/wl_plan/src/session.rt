//! Objects of which some are replaced, and the plan of them as they are.

ghost use Rattle.std.specs.Prelude.{◌≡◌, ◌==◌, ◌<◌, ◌≤◌, ◌↔◌, ℕ, List, [], ◌∷◌, ◌++◌, length, slice_set, IfOk, OnOk, OnErr, IfErr};
ghost use Rattle.wl_bytes.specs.declared.reader.TheConstants.{MAX_LEN};
ghost use Rattle.wl_linking.specs.Object.{Object};
ghost use Rattle.wl_linking.specs.Fitting.{IsObject};
ghost use Rattle.wl_linking.specs.Steps.{Clear, Refuses};
ghost use Rattle.wl_linking.specs.declared.error.LinkError.{LinkError as SpecError};
ghost use Rattle.wl_session.specs.After.{Replacement, after};
ghost use Rattle.wl_symbols.specs.Link.{link_of};
ghost use Rattle.wl_plan.specs.LinkPlan.{HasLinkFault, IsLinkPlan, IsPlanOf};
ghost use Rattle.wl_plan.specs.Objects.{AreObjects};
ghost use Rattle.wl_plan.specs.Session.{Held, holding, IsBadBytes, AreReplaced};
ghost use Rattle.wl_plan.specs.declared.layout.LinkPlan.{LinkPlan as SpecPlan};

use crate::laws::link_plan_or_fault;
use crate::layout::LinkPlan;
use crate::link::{known_link, objects_are_whole, plan_known};
use crate::parsing::link_error;
use std::alloc::Global;
use std::marker::Model;
use wl_linking::{FileList, LinkError, object_or_fault, parse_wasm_module};
use wl_session::Kept;
use wl_words::WasmArgs;

/// Objects of which some are replaced, and the options under which they are planned. What is known
/// of each object by itself is kept from one plan to the next. Clauses see the bytes of the
/// objects, and the options.
#[derive(Drop)]
pub struct Session<'a> {
    alloc: Global,
    args: &'a WasmArgs,
    kept: Kept<'a>,
}

impl<'a> Model for Session<'a> {
    ghost use Rattle.wl_plan.specs.Session.{Held, held_of};

    ghost Value = { Held };

    ghost view = { λ s. held_of s.kept s.args.now };
}

impl<'a> Session<'a> {
    /// No objects, under these options.
    pub fn new(alloc: Global, args: &'a WasmArgs) -> Self
        ensures { result ≡ record { objects = []; args = args.now } }
    {
        Session {
            alloc,
            args,
            kept: Kept::new(alloc),
        }
    }

    /// Puts the object that these bytes are at the end.
    ///
    /// # Errors
    /// `Malformed` or `Unsupported`, with the number that it would have, where the bytes aren't in
    /// the grammar or have a form that isn't taken. The session is then as it was, and also where
    /// memory runs out.
    pub fn push(&mut self, bytes: &'a [u8]) -> Result<(), LinkError>
        requires { length bytes.now ≤ MAX_LEN }
        ensures pushed { OnOk result
            (self.new ≡ holding self.old (self.old.objects ++ bytes.now ∷ [])) }
        ensures sound { OnOk result ((o : Object) × IsObject o bytes.now) }
        ensures clear { OnOk result (Clear (IsBadBytes (length self.old.objects) bytes.now)) }
        ensures kept { OnErr result (self.new ≡ self.old) }
        ensures err { IfErr result (Refuses (IsBadBytes (length self.old.objects) bytes.now)) }
    {
        object_or_fault();
        let place = self.len();
        match parse_wasm_module(self.alloc, bytes) {
            Ok(file) => Ok(self.kept.push(file)?),
            Err(error) => Err(link_error(place, error)),
        }
    }

    /// Puts the object that these bytes are in the place of the one of that number.
    ///
    /// # Errors
    /// As [`Session::push`], with that number.
    pub fn replace(&mut self, object: usize, bytes: &'a [u8]) -> Result<(), LinkError>
        requires object { object < length self.old.objects }
        requires within { length bytes.now ≤ MAX_LEN }
        ensures replaced { OnOk result
            (self.new ≡ holding self.old (slice_set self.old.objects object bytes.now)) }
        ensures sound { OnOk result ((o : Object) × IsObject o bytes.now) }
        ensures clear { OnOk result (Clear (IsBadBytes object bytes.now)) }
        ensures kept { OnErr result (self.new ≡ self.old) }
        ensures err { IfErr result (Refuses (IsBadBytes object bytes.now)) }
    {
        object_or_fault();
        match parse_wasm_module(self.alloc, bytes) {
            Ok(file) => Ok(self.kept.replace(object, file)?),
            Err(error) => Err(link_error(object, error)),
        }
    }

    /// How many objects there are.
    pub fn len(&self) -> usize
        ensures { result ≡ length self.now.objects }
    {
        self.kept.files().len()
    }

    /// Whether there are none.
    pub fn is_empty(&self) -> bool
        ensures { result ≡ (length self.now.objects == 0) }
    {
        self.kept.files().is_empty()
    }

    /// The objects as they are.
    pub fn files(&self) -> &FileList<'a>
        ensures { AreObjects result.now self.now.objects }
    {
        let files = self.kept.files();
        objects_are_whole(files);
        files
    }

    /// The plan of one module of the objects as they are: that of [`plan_link`](crate::plan_link)
    /// over their bytes.
    ///
    /// # Errors
    /// As [`plan_link`](crate::plan_link).
    pub fn plan(&self, alloc: Global) -> Result<LinkPlan<'a>, LinkError>
        ensures ok { IfOk result (IsLinkPlan self.now.objects self.now.args) }
        ensures planned { IfOk result (λ plan. (files : List Object)
            → AreObjects files self.now.objects → IsPlanOf (link_of files self.now.args) plan) }
        ensures err { IfErr result (Refuses (HasLinkFault self.now.objects self.now.args)) }
    {
        object_or_fault();
        let files = self.kept.files();
        objects_are_whole(files);
        let symbols = self.kept.names().table(alloc, files, self.args)?;
        let known = known_link(alloc, files, &symbols, self.kept.facts(), self.args)?;
        plan_known(alloc, files, &symbols, known, self.args)
    }
}

/// After any replacements that are accepted, a session has the plans, and the causes of refusals,
/// that the objects have from nothing after each replacement was done in order: there is one plan
/// at most, whichever way it is made, and where there is one way to it the other isn't refused.
pub fn replaced_sessions_are_planned_anew()
    ensures held { (old new : Held) (done : List (Replacement (List ℕ)))
        → AreReplaced old done new → new ≡ holding old (after old.objects done) }
    ensures plans { (old new : Held) (done : List (Replacement (List ℕ))) (plan : SpecPlan)
        → AreReplaced old done new → IsLinkPlan new.objects new.args plan
        ↔ IsLinkPlan (after old.objects done) old.args plan }
    ensures causes { (old new : Held) (done : List (Replacement (List ℕ))) (e : SpecError)
        → AreReplaced old done new → HasLinkFault new.objects new.args e
        ↔ HasLinkFault (after old.objects done) old.args e }
    ensures one { (old new : Held) (done : List (Replacement (List ℕ))) (a b : SpecPlan)
        → AreReplaced old done new → IsLinkPlan new.objects new.args a
        → IsLinkPlan (after old.objects done) old.args b → a ≡ b }
    ensures either { (old new : Held) (done : List (Replacement (List ℕ))) (plan : SpecPlan)
        (e : SpecError) → AreReplaced old done new → IsLinkPlan new.objects new.args plan
        → HasLinkFault (after old.objects done) old.args e → ⊥ }
{
    link_plan_or_fault();
}
