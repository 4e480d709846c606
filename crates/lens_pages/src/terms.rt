//! Terms, conditions and rules with the names of a file.
use crate::page::Page;
use crate::piece::{Naming, Piece};
use term_core::{Cond, Head, Term, room_after};

// The nodes of the largest term that is written whole.
const MOST_NODES: u32 = 1000;

// Its depth.
const MOST_LEVELS: u32 = 200;

impl<'a> Page<'a> {
    fn name(&mut self, symbol: u32) {
        let names = self.names;
        self.words(names.symbol_name(symbol).unwrap_or("?"));
    }

    fn head(&mut self, head: Head) {
        match head {
            Head::File(symbol) => self.name(symbol),
            Head::Aux { rule, cond } => {
                self.words("aux");
                self.dotted(&[rule, cond]);
            }
        }
    }

    fn measure_head(&mut self, head: Head) {
        match head {
            Head::File(symbol) => {
                self.words("fun ");
                self.name(symbol);
            }
            Head::Aux { rule, cond } => {
                self.words("aux ");
                self.number(rule as usize);
                self.words(" ");
                self.number(cond as usize);
            }
        }
    }

    fn symbol(&mut self, symbol: u32) {
        let head = self.heads.get(symbol as usize).copied();
        self.head(head.unwrap_or(Head::File(symbol)));
    }

    fn variable_of(&mut self, rule: u32, x: u32, mark: &str) {
        let names = self.names;
        match names.variable_name(rule, x) {
            Some(name) => {
                self.words(name);
                self.words(mark);
            }
            None => self.numbered(x),
        }
    }

    fn numbered(&mut self, x: u32) {
        self.words("|");
        self.number(x as usize);
    }

    fn variable(&mut self, naming: Naming, x: u32) {
        match naming {
            Naming::Numbered => self.numbered(x),
            Naming::OfRule(rule) => self.variable_of(rule, x, ""),
            Naming::OfOverlap { inner, .. } if x % 2 == 0 => self.variable_of(inner, x / 2, "'"),
            Naming::OfOverlap { outer, .. } => self.variable_of(outer, x / 2, ""),
        }
    }

    // A term, whatever its size; the recursion goes as deep as the term.
    #[cycle(parts)]
    fn parts(&mut self, naming: Naming, term: &Term) {
        match term {
            Term::Var(x) => self.variable(naming, *x),
            Term::Fun(f, args) => {
                self.symbol(*f);
                self.arguments(naming, args);
            }
        }
    }

    // The arguments of a symbol, in brackets if there are any.
    #[cycle(parts)]
    fn arguments(&mut self, naming: Naming, args: &[Term]) {
        for (i, arg) in args.iter().enumerate() {
            self.words(if i == 0 { "(" } else { "," });
            self.parts(naming, arg);
        }
        if !args.is_empty() {
            self.words(")");
        }
    }

    // A term; of a large one the root alone.
    fn term(&mut self, naming: Naming, term: &Term) {
        match term {
            Term::Fun(f, _) if room_after(term, MOST_NODES, MOST_LEVELS).is_none() => {
                self.symbol(*f);
                self.words("(..)");
            }
            _ => self.parts(naming, term),
        }
    }

    fn condition(&mut self, naming: Naming, cond: &Cond) {
        self.term(naming, &cond.left);
        self.words(" == ");
        self.term(naming, &cond.right);
    }

    // The conditions of a rule behind a bar, if there are any.
    fn conditions(&mut self, naming: Naming, conds: &[Cond]) {
        for (i, cond) in conds.iter().enumerate() {
            self.words(if i == 0 { " | " } else { ", " });
            self.condition(naming, cond);
        }
    }

    // Puts a piece last that has names.
    pub(crate) fn named(&mut self, piece: Piece<'_>) {
        match piece {
            Piece::Variable(naming, x) => self.variable(naming, x),
            Piece::Head(head) => self.head(head),
            Piece::MeasureHead(head) => self.measure_head(head),
            Piece::Term(naming, term) => self.term(naming, term),
            Piece::Cond(naming, cond) => self.condition(naming, cond),
            Piece::Rule(naming, rule) => {
                self.term(naming, &rule.left);
                self.words(" -> ");
                self.term(naming, &rule.right);
                self.conditions(naming, &rule.conds);
            }
            _ => {}
        }
    }
}
