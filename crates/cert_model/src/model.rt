//! Certificates that a system is confluent or that it is not, and steps that simplify a system.
use crate::derivations::Derivation;
use crate::evidence::{InfEvidence, PairEvidence};
use term_core::{Head, Term};

/// The overlap of the inner rule, at a position of the outer rule's left side, and its evidence.
/// Rules are numbered from 1.
#[derive(Debug, Drop)]
pub struct PairEntry {
    pub inner: u32,
    pub pos: Vec<u32>,
    pub outer: u32,
    pub evidence: PairEvidence,
}

/// The constant and then the coefficients of a symbol of the unraveled system.
#[derive(Debug, Drop)]
pub struct LinearEntry {
    pub head: Head,
    pub coeffs: Vec<u32>,
}

/// A linear interpretation of the symbols of the unraveled system.
#[derive(Debug, Drop)]
pub struct Linear {
    pub entries: Vec<LinearEntry>,
}

/// A measure under which the rules of the unraveled system fall.
#[derive(Debug, Drop)]
pub enum MeasureCert {
    Linear(Linear),
    /// A precedence: the symbols of the unraveled system, the greatest first.
    Lpo(Vec<Head>),
}

/// Evidence that a rule does not apply at a position of the first or second end, which is 1 or 2.
#[derive(Debug, Drop)]
pub struct Redex {
    pub which: u32,
    pub pos: Vec<u32>,
    pub rule: u32,
    pub evidence: InfEvidence,
}

/// Why two terms have no common reduct.
#[derive(Debug, Drop)]
pub enum NonJoin {
    /// They differ and neither has a step, by the evidence for each redex.
    Normal(Vec<Redex>),
    /// Their rigid caps do not unify.
    Caps,
}

/// Derivations from one term to two terms that have no common reduct.
#[derive(Debug, Drop)]
pub struct Peak {
    pub start: Term,
    pub first: Derivation,
    pub second: Derivation,
    pub apart: NonJoin,
}

/// A step that simplifies a system. Rules and conditions are numbered from 1.
#[derive(Debug, Drop)]
pub enum Simp {
    /// A rule whose conditions are never met goes.
    Drop { rule: u32, evidence: InfEvidence },
    /// A condition that only names its left side goes, and the left side is put for the name.
    Inline { rule: u32, cond: u32 },
}

/// Evidence that a system is confluent, or that it is not.
#[derive(Debug, Drop)]
pub enum Certificate {
    /// Of an almost orthogonal system: its overlaps.
    Ortho(Vec<PairEntry>),
    /// Of a system under a measure: its overlaps.
    Quasi(MeasureCert, Vec<PairEntry>),
    /// Of a system that is not confluent.
    Peak(Peak),
    /// Of the system that the steps leave.
    Simplified {
        steps: Vec<Simp>,
        body: Box<Certificate>,
    },
}
