//! The rules of a file as an automaton over words, with a stack of open brackets.
ghost use Rattle.std.specs.Prelude.{◌≡◌, IfOk, option_map, [], reverse};
ghost use Rattle.cops_syntax.specs.Flat as flat;
ghost use Rattle.cops_syntax.specs.Flat.{IsRaisable, CanRead};
ghost use Rattle.cops_syntax.specs.View.{name_view, nodes_view};
ghost use Rattle.cops_syntax.specs.States.{word_view, rule_view, rules_view, part_view, reading_view, stepped, rules_if};

use crate::tree::{CondText, Name, Node, RuleText};
use crate::word::Word;
use std::alloc::{AllocError, Global};
use std::mem;

// What was read last of a term.
#[derive(Clone, Copy)]
enum Last<'a> {
    // nothing of it, or a comma
    Want,
    // an identifier and its bracket
    Opened,
    // an identifier, which is not in the list yet
    Bare(Name<'a>),
    // a closing bracket
    Closed,
}

// Which part of a rule is read, with the parts before it.
#[derive(Drop)]
enum Part<'a> {
    Left,
    Right(Vec<Node<'a>>),
    CondLeft(RuleText<'a>),
    CondRight(RuleText<'a>, Vec<Node<'a>>),
}

/// Rules that are read, one word after the other: the whole ones, and how far the next one is.
#[derive(Drop)]
pub struct Reading<'a> {
    rules: Vec<RuleText<'a>>,
    part: Part<'a>,
    // the term that is read
    nodes: Vec<Node<'a>>,
    // where in it the identifiers stand whose brackets are open
    opens: Vec<usize>,
    last: Last<'a>,
}

// The rule with one more condition at the end.
fn with_condition<'a>(
    mut rule: RuleText<'a>,
    left: Vec<Node<'a>>,
    right: Vec<Node<'a>>,
) -> Result<RuleText<'a>, AllocError>
    ensures { IfOk result (λ r. rule_view r ≡ flat.with_condition (rule_view rule.entry) (nodes_view left.entry.items) (nodes_view right.entry.items)) }
{
    rule.conditions.push(CondText { left, right })?;
    Ok(rule)
}

// The rule that ends with this term, if one may end here.
fn ended<'a>(
    alloc: Global,
    part: Part<'a>,
    term: Vec<Node<'a>>,
) -> Result<Option<RuleText<'a>>, AllocError>
    ensures { IfOk result (λ r. option_map rule_view r ≡ flat.ended (part_view part.entry) (nodes_view term.entry.items)) }
{
    match part {
        Part::Right(left) => Ok(Some(RuleText {
            left,
            right: term,
            bar: None,
            conditions: Vec::new(alloc),
        })),
        Part::CondRight(rule, left) => Ok(Some(with_condition(rule, left, term)?)),
        _ => Ok(None),
    }
}

// The part that comes next, if this word may stand behind the term.
fn next_part<'a>(
    alloc: Global,
    part: Part<'a>,
    term: Vec<Node<'a>>,
    word: Word<'a>,
) -> Result<Option<Part<'a>>, AllocError>
    ensures { IfOk result (λ p. option_map part_view p ≡ flat.next_part (part_view part.entry) (nodes_view term.entry.items) (word_view word.entry)) }
{
    match (part, word) {
        (Part::Left, Word::Arrow) => Ok(Some(Part::Right(term))),
        (Part::Right(left), Word::Bar(at)) => Ok(Some(Part::CondLeft(RuleText {
            left,
            right: term,
            bar: Some(at),
            conditions: Vec::new(alloc),
        }))),
        (Part::CondLeft(rule), Word::Equal) => Ok(Some(Part::CondRight(rule, term))),
        (Part::CondRight(rule, left), Word::Comma) => {
            Ok(Some(Part::CondLeft(with_condition(rule, left, term)?)))
        }
        _ => Ok(None),
    }
}

#[tactic(auto, using(crate::proofs::Pushes::opens_push, crate::proofs::Pushes::nodes_push, crate::proofs::Pushes::rules_push, crate::proofs::Pushes::flat_empty))]
impl<'a> Reading<'a> {
    /// No rule yet.
    pub fn new(alloc: Global) -> Self
        ensures { reading_view result ≡ flat.no_rules }
    {
        Reading {
            rules: Vec::new(alloc),
            part: Part::Left,
            nodes: Vec::new(alloc),
            opens: Vec::new(alloc),
            last: Last::Want,
        }
    }

    /// The conditions of a rule, behind its sides, which are this identifier, and its bar at 0.
    pub fn of_conditions(alloc: Global, name: Name<'a>) -> Result<Self, AllocError>
        ensures { IfOk result (λ r. reading_view r ≡ flat.condition_reading (name_view name.entry)) }
    {
        let node = Node {
            name,
            brackets: false,
            arguments: 0,
        };
        let mut left = Vec::new(alloc);
        left.push(node)?;
        let mut right = Vec::new(alloc);
        right.push(node)?;
        let rule = RuleText {
            left,
            right,
            bar: Some(0),
            conditions: Vec::new(alloc),
        };
        Ok(Reading {
            rules: Vec::new(alloc),
            part: Part::CondLeft(rule),
            nodes: Vec::new(alloc),
            opens: Vec::new(alloc),
            last: Last::Want,
        })
    }

    // The identifier at this place has one more argument.
    fn raise(&mut self, place: usize)
        requires { IsRaisable (nodes_view self.old.nodes.items) place }
        ensures { reading_view self.new ≡ flat.with_raised (reading_view self.old) place }
    {
        self.nodes[place].arguments += 1;
    }

    // The bracket of this identifier opens.
    fn open(&mut self, name: Name<'a>) -> Result<bool, AllocError>
        ensures { IfOk result (λ on. stepped on self.new ≡ Some (flat.with_call (reading_view self.old) (name_view name.entry))) }
    {
        self.opens.push(self.nodes.len())?;
        self.nodes.push(Node {
            name,
            brackets: true,
            arguments: 0,
        })?;
        self.last = Last::Opened;
        Ok(true)
    }

    // A bracket closes behind the opening one.
    fn shut(&mut self) -> bool
        ensures { stepped result self.new ≡ flat.shut (reading_view self.old) }
    {
        match self.opens.pop() {
            Some(_) => {
                self.last = Last::Closed;
                true
            }
            None => false,
        }
    }

    // A word behind an argument of the identifier at this place.
    fn behind_argument(&mut self, place: usize, word: Word<'a>) -> Result<bool, AllocError>
        requires { IsRaisable (nodes_view self.old.nodes.items) place }
        ensures { IfOk result (λ on. stepped on self.new ≡ flat.behind_argument (reading_view self.old) place (word_view word.entry)) }
    {
        match word {
            Word::RightParen => {
                self.raise(place);
                self.last = Last::Closed;
                Ok(true)
            }
            Word::Comma => {
                self.raise(place);
                self.opens.push(place)?;
                self.last = Last::Want;
                Ok(true)
            }
            _ => Ok(false),
        }
    }

    // The rule ends with the term, if one may end here.
    fn end_rule(&mut self, alloc: Global) -> Result<bool, AllocError>
        ensures rules { IfOk result (λ on. rules_if on self.new ≡ flat.end_rule (reading_view self.old)) }
        ensures part { part_view self.new.part ≡ flat.left_side }
        ensures nodes { self.new.nodes.items ≡ [] }
        ensures opens { self.new.opens ≡ self.old.opens }
    {
        let part = mem::replace(&mut self.part, Part::Left);
        let term = mem::replace(&mut self.nodes, Vec::new(alloc));
        match ended(alloc, part, term)? {
            Some(rule) => {
                self.rules.push(rule)?;
                Ok(true)
            }
            None => Ok(false),
        }
    }

    // An identifier behind a whole rule begins the next one.
    fn next_rule(&mut self, alloc: Global, first: Name<'a>) -> Result<bool, AllocError>
        requires { self.old.opens.items ≡ [] }
        ensures { IfOk result (λ on. stepped on self.new ≡ flat.next_rule (reading_view self.old) (name_view first.entry)) }
    {
        let ended = self.end_rule(alloc)?;
        self.last = Last::Bare(first);
        Ok(ended)
    }

    // A sign behind a term leads to the rule's next part.
    fn next_side(&mut self, alloc: Global, word: Word<'a>) -> Result<bool, AllocError>
        requires { self.old.opens.items ≡ [] }
        ensures { IfOk result (λ on. stepped on self.new ≡ flat.next_side (reading_view self.old) (word_view word.entry)) }
    {
        let part = mem::replace(&mut self.part, Part::Left);
        let term = mem::replace(&mut self.nodes, Vec::new(alloc));
        match next_part(alloc, part, term, word)? {
            Some(part) => {
                self.part = part;
                self.last = Last::Want;
                Ok(true)
            }
            None => Ok(false),
        }
    }

    // A word behind a whole term.
    fn behind(&mut self, alloc: Global, word: Word<'a>) -> Result<bool, AllocError>
        requires { CanRead (reading_view self.old) }
        ensures { IfOk result (λ on. stepped on self.new ≡ flat.behind (reading_view self.old) (word_view word.entry)) }
    {
        match self.opens.pop() {
            Some(place) => self.behind_argument(place, word),
            None => match word {
                Word::Id(first) => self.next_rule(alloc, first),
                _ => self.next_side(alloc, word),
            },
        }
    }

    // An identifier without brackets is whole.
    fn push_bare(&mut self, name: Name<'a>) -> Result<(), AllocError>
        ensures { IfOk result (λ _. reading_view self.new ≡ flat.with_bare (reading_view self.old) (name_view name.entry)) }
    {
        self.nodes.push(Node {
            name,
            brackets: false,
            arguments: 0,
        })?;
        Ok(())
    }

    /// Whether the word may stand here; then the state is the one behind it.
    pub fn step(&mut self, alloc: Global, word: Word<'a>) -> Result<bool, AllocError>
        requires { CanRead (reading_view self.old) }
        ensures { IfOk result (λ on. stepped on self.new ≡ flat.step (reading_view self.old) (word_view word.entry)) }
    {
        match (self.last, word) {
            (Last::Want | Last::Opened, Word::Id(name)) => {
                self.last = Last::Bare(name);
                Ok(true)
            }
            (Last::Opened, Word::RightParen) => Ok(self.shut()),
            (Last::Bare(name), Word::LeftParen) => self.open(name),
            (Last::Bare(name), _) => {
                self.push_bare(name)?;
                self.behind(alloc, word)
            }
            (Last::Closed, _) => self.behind(alloc, word),
            _ => Ok(false),
        }
    }

    // A closing bracket behind a whole rule.
    fn close_rule(&mut self, alloc: Global) -> Result<bool, AllocError>
        ensures { IfOk result (λ on. rules_if on self.new ≡ flat.close_rule (reading_view self.old)) }
    {
        match self.last {
            Last::Bare(name) => {
                self.push_bare(name)?;
                self.end_rule(alloc)
            }
            Last::Closed => self.end_rule(alloc),
            Last::Want => Ok(matches!(self.part, Part::Left)),
            Last::Opened => Ok(false),
        }
    }

    /// Whether no rule is whole.
    pub fn has_none(&self) -> bool
        ensures { result ≡ flat.is_none (rules_view self.now.rules.items) }
    {
        self.rules.is_empty()
    }

    /// Whether no bracket is open.
    pub fn is_flat(&self) -> bool
        ensures { result ≡ flat.is_flat (reverse self.now.opens.items) }
    {
        self.opens.is_empty()
    }

    /// The rules, if the last one is whole or there is none. They are taken out.
    pub fn finish(&mut self, alloc: Global) -> Result<Option<Vec<RuleText<'a>>>, AllocError>
        ensures { IfOk result (λ r. option_map (λ v. rules_view v.items) r ≡ flat.close_rule (reading_view self.old)) }
    {
        if self.close_rule(alloc)? {
            Ok(Some(mem::replace(&mut self.rules, Vec::new(alloc))))
        } else {
            Ok(None)
        }
    }
}
