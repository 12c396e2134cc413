//! The rules of `dependsOn` and of references, F40 to F46, for one request whose names are looked up.

ghost use Rattle.std.specs.Prelude.{IsTrue, ◌↔◌, ◌≡◌, ◌<◌, ◌+◌, ◌⊎◌, ◌∷◌, [], ℕ, List, length, Some, None, IfNone, IfSome, Contains, false};
ghost use Rattle.std.proofs.Props.{props};
ghost use Rattle.odb_check.specs.Marks.{AreMarksOf};
ghost use Rattle.odb_check.specs.NameFaults.{IsBrokenAt, IsMemberAlone, SomeName};
ghost use Rattle.odb_check.specs.Positions.{id_at, group_at, names_at, IsIdFrom, IsGroupAfter, IsInGroupOf, NamesGroupOf};
ghost use Rattle.odb_check.specs.Requests.{requests};
ghost use Rattle.odb_check.specs.Walks.{BreaksFirst, BreaksIn, BreaksNone, HasValidIds, named_at, further_needs};
ghost use Rattle.odb_check.specs.declared.fault.NameRule.TheVariants as rules;

use crate::fault::NameRule;
use crate::marks::Marks;
use crate::need::Need;
use crate::tables::Tables;

/// The rules of dependencies and references, by number.
pub(crate) const DEPENDENCY_RULES: &'static [NameRule] = &[
    NameRule::UnknownName,
    NameRule::ForwardName,
    NameRule::OwnGroup,
    NameRule::GroupNotListed,
    NameRule::UnknownReference,
    NameRule::ForwardReference,
    NameRule::ReferenceNotListed,
];

/// A request of a batch whose identifiers and groups break no rule, once its names are looked up.
#[derive(Clone, Copy)]
pub(crate) struct Resolved<'w, 'b> {
    pub(crate) tables: &'w Tables<'b>,
    pub(crate) i: u32,
    /// What those of its names resolve to that are known.
    pub(crate) named: &'w [Need],
    /// The marks, among which that has the stamp `i + 1`.
    pub(crate) marks: &'w Marks,
    ghost within: { i < length (requests tables.now) },
    ghost valid_ids: { HasValidIds (requests tables.now) },
    ghost names: { named.now ≡ named_at (requests tables.now) i },
    ghost marked: { AreMarksOf (requests tables.now) (named_at (requests tables.now) i) (i + 1)
        marks.now.ones.items marks.now.groups.items } by { Prim.hlevel props },
}

impl Resolved<'_, '_> {
    ghost use Rattle.odb_check.specs.Resolved.{BreaksByName, IsAnswer, MissesGroupOf, batch_of, referred_by};

    /// Whether what is needed is this request or a later one, or a group that begins later.
    fn is_later(&self, need: Need) -> bool
        ensures { IsAnswer (batch_of self.now) need result (λ name.
            IsIdFrom (batch_of self.now) name self.now.i ⊎ IsGroupAfter (batch_of self.now) name self.now.i) }
    {
        match need {
            Need::One(position) => self.i <= position,
            Need::Group(unit) => self.tables.unit_of(self.i) < unit,
        }
    }

    /// Whether what is needed is the group of this request.
    fn is_own(&self, need: Need) -> bool
        ensures { IsAnswer (batch_of self.now) need result (λ name.
            group_at (batch_of self.now) self.now.i ≡ Some name) }
    {
        match need {
            Need::One(_) => false,
            Need::Group(unit) => unit == self.tables.unit_of(self.i),
        }
    }

    /// Whether the other request precedes this one and is not in its group.
    #[tactic(auto, using(crate::proofs::NameLemmas::outside_Decides))]
    fn is_outside(&self, position: u32) -> bool
        ensures { IsTrue result ↔ ((position < self.now.i)
            × ¬ IsInGroupOf (batch_of self.now) self.now.i position) }
    {
        position < self.i && self.tables.unit_of(position) != self.tables.unit_of(self.i)
    }

    /// Whether `dependsOn` lists the group of the other request.
    #[tactic(auto, using(crate::proofs::NameLemmas::group_marked))]
    fn lists_group_of(&self, position: u32) -> bool
        requires { position < length (batch_of self.now) }
        ensures { IsTrue result ↔ NamesGroupOf (batch_of self.now) self.now.i position }
    {
        self.marks
            .has_group(self.tables.unit_of(position), self.i + 1)
    }

    /// Whether `dependsOn` lists the other request.
    #[tactic(auto, using(crate::proofs::ReferenceLemmas::one_marked))]
    fn lists(&self, position: u32) -> bool
        requires { position < length (batch_of self.now) }
        ensures { (id : List ℕ) → id_at (batch_of self.now) position ≡ Some id
            → (IsTrue result ↔ Contains (names_at (batch_of self.now) self.now.i) id) }
    {
        self.marks.has_one(position, self.i + 1)
    }

    /// Whether the other request precedes this one, is not in its group, and `dependsOn` does not list
    /// the group of the other.
    fn misses_group_of(&self, position: u32) -> bool
        ensures { IsTrue result ↔ MissesGroupOf (batch_of self.now) self.now.i position }
    {
        self.is_outside(position) && !self.lists_group_of(position)
    }

    /// Whether what is needed is an earlier request in another group, which `dependsOn` does not list.
    fn is_member_alone(&self, need: Need) -> bool
        ensures { IsAnswer (batch_of self.now) need result
            (IsMemberAlone (batch_of self.now) self.now.i) }
    {
        match need {
            Need::One(position) => {
                self.misses_group_of(position) && self.tables.group(position).is_some()
            }
            Need::Group(_) => false,
        }
    }

    /// Whether what is needed may break a rule on names. An earlier request in no group and a group that
    /// begins earlier break none.
    fn may_break(&self, need: Need) -> bool
        ensures { result ≡ false → IsAnswer (batch_of self.now) need false
            (BreaksByName (batch_of self.now) self.now.i) }
    {
        match need {
            Need::One(position) => self.i <= position || self.tables.group(position).is_some(),
            Need::Group(unit) => self.tables.unit_of(self.i) <= unit,
        }
    }

    /// Whether one of the names may break a rule on names.
    fn names_may_break(&self) -> bool
        ensures { result ≡ false → ¬ SomeName (batch_of self.now) self.now.i
            (BreaksByName (batch_of self.now) self.now.i) }
    {
        self.named.iter().any(|need| self.may_break(*need))
    }

    /// The request that the URL refers to, if the batch has it.
    fn referred(&self) -> Option<u32>
        ensures { result ≡ referred_by self.now }
    {
        self.tables.referred(self.i)
    }

    /// F41: whether `dependsOn` lists a request or a group that does not precede.
    fn names_later(&self) -> bool
        ensures { IsTrue result ↔ IsBrokenAt rules.ForwardName (batch_of self.now) self.now.i }
    {
        self.named.iter().any(|need| self.is_later(*need))
    }

    /// F42: whether `dependsOn` lists the group of the request.
    fn names_own_group(&self) -> bool
        ensures { IsTrue result ↔ IsBrokenAt rules.OwnGroup (batch_of self.now) self.now.i }
    {
        self.named.iter().any(|need| self.is_own(*need))
    }

    /// F43: whether `dependsOn` lists a member of another group without that group.
    fn names_member_alone(&self) -> bool
        ensures { IsTrue result ↔ IsBrokenAt rules.GroupNotListed (batch_of self.now) self.now.i }
    {
        self.named.iter().any(|need| self.is_member_alone(*need))
    }

    /// F44: whether the URL refers to a request that the batch does not have.
    fn has_unknown_reference(&self) -> bool
        ensures { IsTrue result ↔ IsBrokenAt rules.UnknownReference (batch_of self.now) self.now.i }
    {
        match self.referred() {
            Some(_) => false,
            None => self.tables.reference(self.i).is_some(),
        }
    }

    /// F45: whether the URL refers to a request that does not precede.
    #[tactic(auto, using(crate::proofs::ReferenceLemmas::where_it_refers))]
    fn has_forward_reference(&self) -> bool
        ensures { IsTrue result ↔ IsBrokenAt rules.ForwardReference (batch_of self.now) self.now.i }
    {
        match self.referred() {
            Some(position) => self.i <= position,
            None => false,
        }
    }

    /// F46: whether the URL refers to an earlier request outside the group, and `dependsOn` lists
    /// neither that request nor its group.
    fn lacks_reference(&self) -> bool
        ensures { IsTrue result ↔ IsBrokenAt rules.ReferenceNotListed (batch_of self.now) self.now.i }
    {
        match self.referred() {
            Some(position) => !self.lists(position) && self.misses_group_of(position),
            None => false,
        }
    }

    /// Whether the request breaks the rule, of which F40 is broken if one of its names is unknown.
    pub(crate) fn breaks(&self, has_unknown: bool, rule: NameRule) -> bool
        requires { IsTrue has_unknown ↔ IsBrokenAt rules.UnknownName (batch_of self.now) self.now.i }
        ensures { IsTrue result ↔ BreaksIn 4 (batch_of self.now) rule self.now.i }
    {
        match rule {
            NameRule::IdTwice | NameRule::IdIsGroup | NameRule::GroupSplit => false,
            NameRule::UnknownName => has_unknown,
            NameRule::ForwardName => self.names_later(),
            NameRule::OwnGroup => self.names_own_group(),
            NameRule::GroupNotListed => self.names_member_alone(),
            NameRule::UnknownReference => self.has_unknown_reference(),
            NameRule::ForwardReference => self.has_forward_reference(),
            NameRule::ReferenceNotListed => self.lacks_reference(),
        }
    }

    /// Whether a known name breaks a rule. Most requests are passed after one look at each name.
    fn breaks_by_name(&self) -> bool
        ensures later { result ≡ false → ¬ IsBrokenAt rules.ForwardName (batch_of self.now) self.now.i }
        ensures own { result ≡ false → ¬ IsBrokenAt rules.OwnGroup (batch_of self.now) self.now.i }
        ensures alone { result ≡ false → ¬ IsBrokenAt rules.GroupNotListed (batch_of self.now) self.now.i }
    {
        self.names_may_break()
            && (self.names_later() || self.names_own_group() || self.names_member_alone())
    }

    /// Whether the request that the URL refers to breaks a rule. Most URLs refer to none.
    fn breaks_by_reference(&self) -> bool
        ensures unknown { result ≡ false
            → ¬ IsBrokenAt rules.UnknownReference (batch_of self.now) self.now.i }
        ensures forward { result ≡ false
            → ¬ IsBrokenAt rules.ForwardReference (batch_of self.now) self.now.i }
        ensures unlisted { result ≡ false
            → ¬ IsBrokenAt rules.ReferenceNotListed (batch_of self.now) self.now.i }
    {
        self.tables.reference(self.i).is_some()
            && (self.has_unknown_reference()
                || self.has_forward_reference()
                || self.lacks_reference())
    }

    /// Whether the request breaks one of the rules on names and references.
    fn breaks_any(&self, has_unknown: bool) -> bool
        requires { IsTrue has_unknown ↔ IsBrokenAt rules.UnknownName (batch_of self.now) self.now.i }
        ensures { result ≡ false → BreaksNone 4 (batch_of self.now) self.now.i }
    {
        has_unknown || self.breaks_by_name() || self.breaks_by_reference()
    }

    /// The first rule on names and references that the request breaks, of which F40 is broken if one of its
    /// names is unknown.
    pub(crate) fn broken_rule(&self, has_unknown: bool) -> Option<NameRule>
        requires { IsTrue has_unknown ↔ IsBrokenAt rules.UnknownName (batch_of self.now) self.now.i }
        ensures some { IfSome result (BreaksFirst 4 (batch_of self.now) self.now.i) }
        ensures none { IfNone result (BreaksNone 4 (batch_of self.now) self.now.i) }
    {
        if !self.breaks_any(has_unknown) {
            return None;
        }
        for rule in DEPENDENCY_RULES {
            if self.breaks(has_unknown, *rule) {
                return Some(*rule);
            }
        }
        None
    }

    /// The request that the URL refers to, unless `dependsOn` lists it.
    pub(crate) fn further_need(&self) -> Option<Need>
        requires { ¬ IsBrokenAt rules.UnknownReference (batch_of self.now) self.now.i }
        ensures some { IfSome result (λ need. further_needs (batch_of self.now) self.now.i ≡ need ∷ []) }
        ensures none { result ≡ None → further_needs (batch_of self.now) self.now.i ≡ [] }
    {
        match self.referred() {
            Some(position) => {
                if self.lists(position) {
                    None
                } else {
                    Some(Need::One(position))
                }
            }
            None => None,
        }
    }
}
