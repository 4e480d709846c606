//! The texts of rejections.
ghost use Rattle.std.specs.Prelude.{◌≡◌, ◌++◌, IfOk, OnOk, Some, codes, decimal};
ghost use Rattle.std.specs.Option.{option_copied};
ghost use Rattle.cert_model.specs.ReasonView.{step_reason_view, bad_step_view, class_view, blame_view, measure_reason_view, evidence_reason_view, simp_reason_view, rejected_view};
ghost use Rattle.concon_run.specs.Rejections.{step_reason_text, bad_step_text, class_text, variable_text, blame_text, place_text, measure_text, evidence_reason_text, simplification_reason_text, rejection_text, rejected_line};
ghost use Rattle.certificates.specs.Reasons.{auto_not_closed};

use crate::pieces::{Piece, put_all};
use cert_model::{
    BadStep, Blame, Class, EvidenceReason, MeasureReason, Rejected, SimpReason, StepReason,
};
use cops_read::Names;
use std::alloc::{AllocError, Global};

fn step_reason_words(reason: StepReason) -> &'static [u8]
    ensures { result.now ≡ step_reason_text (step_reason_view reason) }
{
    match reason {
        StepReason::NoSuchRule => b"no such rule",
        StepReason::NoSuchHypothesis => b"no such hypothesis",
        StepReason::NoRedex => b"no redex",
        StepReason::WrongCount => b"wrong count",
        StepReason::Unbound => b"unbound",
        StepReason::ConditionFails => b"condition fails",
        StepReason::TooLarge => b"too large",
    }
}

fn class_words(class: Class) -> &'static [u8]
    ensures { result.now ≡ class_text (class_view class) }
{
    match class {
        Class::LeftLinear => b"left-linear",
        Class::Type3 => b"type3",
        Class::ExtendedOriented => b"oriented",
        Class::RightStable => b"right-stable",
        Class::Deterministic => b"deterministic",
    }
}

fn put_bad_step(out: &mut Vec<u8>, what: &'static [u8], bad: &BadStep) -> Result<(), AllocError>
    ensures { OnOk result (out.new.items ≡ out.old.items ++ (what.now ++ bad_step_text (bad_step_view bad.now))) }
{
    put_all(
        out,
        &[
            Piece::Text(what),
            Piece::Path(&bad.path),
            Piece::Text(b" "),
            Piece::Text(step_reason_words(bad.reason)),
        ],
    )
}

fn put_place(
    out: &mut Vec<u8>,
    what: &'static [u8],
    i: u32,
    pos: &[u32],
    j: u32,
) -> Result<(), AllocError>
    ensures { OnOk result (out.new.items ≡ out.old.items ++ (what.now ++ place_text i pos.now j)) }
{
    put_all(
        out,
        &[
            Piece::Text(what),
            Piece::Number(i),
            Piece::Text(b" "),
            Piece::Position(pos),
            Piece::Text(b" "),
            Piece::Number(j),
        ],
    )
}

fn put_number(out: &mut Vec<u8>, what: &'static [u8], n: u32) -> Result<(), AllocError>
    ensures { OnOk result (out.new.items ≡ out.old.items ++ (what.now ++ decimal n)) }
{
    put_all(out, &[Piece::Text(what), Piece::Number(n)])
}

// A variable of a rule by its name.
fn put_named(out: &mut Vec<u8>, names: &Names, rule: u32, k: u32) -> Result<(), AllocError>
    ensures { OnOk result (out.new.items ≡ out.old.items ++ variable_text (Some names.now) rule (Some k)) }
{
    match names.variable_name(rule, k) {
        Some(name) => put_all(out, &[Piece::Text(b" variable "), Piece::Name(name)]),
        None => put_all(out, &[Piece::Text(b" variable ")]),
    }
}

// By its name, or by its number where no names are given.
fn put_variable(
    out: &mut Vec<u8>,
    names: Option<&Names>,
    rule: u32,
    variable: Option<u32>,
) -> Result<(), AllocError>
    ensures { OnOk result (out.new.items ≡ out.old.items ++ variable_text (option_copied names.entry) rule variable) }
{
    let Some(k) = variable else {
        return Ok(());
    };
    match names {
        Some(names) => put_named(out, names, rule, k),
        None => put_all(
            out,
            &[
                Piece::Text(b" variable "),
                Piece::Text(b"|"),
                Piece::Number(k),
            ],
        ),
    }
}

fn put_blame(out: &mut Vec<u8>, names: Option<&Names>, blame: &Blame) -> Result<(), AllocError>
    ensures { OnOk result (out.new.items ≡ out.old.items ++ blame_text (option_copied names.entry) (blame_view blame.now)) }
{
    put_all(
        out,
        &[
            Piece::Text(b"class "),
            Piece::Text(class_words(blame.class)),
            Piece::Text(b" rule "),
            Piece::Number(blame.rule),
            Piece::Text(b" condition "),
            Piece::Number(blame.cond),
        ],
    )?;
    put_variable(out, names, blame.rule, blame.variable)
}

fn put_measure(out: &mut Vec<u8>, reason: MeasureReason) -> Result<(), AllocError>
    ensures { OnOk result (out.new.items ≡ out.old.items ++ measure_text (measure_reason_view reason)) }
{
    match reason {
        MeasureReason::Shape { entry } => put_number(out, b"measure shape ", entry),
        MeasureReason::Coefficient { entry } => put_number(out, b"measure coefficient ", entry),
        MeasureReason::Overflow { rule } => put_number(out, b"measure overflow rule ", rule),
        MeasureReason::Variable { rule, variable } => put_all(
            out,
            &[
                Piece::Text(b"measure rule "),
                Piece::Number(rule),
                Piece::Text(b" variable |"),
                Piece::Number(variable),
            ],
        ),
        MeasureReason::Constant { rule } => put_all(
            out,
            &[
                Piece::Text(b"measure rule "),
                Piece::Number(rule),
                Piece::Text(b" constant"),
            ],
        ),
        MeasureReason::Order { rule } => put_all(
            out,
            &[
                Piece::Text(b"measure rule "),
                Piece::Number(rule),
                Piece::Text(b" order"),
            ],
        ),
    }
}

fn put_words(out: &mut Vec<u8>, what: &'static [u8]) -> Result<(), AllocError>
    ensures { OnOk result (out.new.items ≡ out.old.items ++ what.now) }
{
    out.extend_from_slice(what)
}

fn put_not_closed(
    out: &mut Vec<u8>,
    rule: u32,
    states: &[u32],
    target: u32,
) -> Result<(), AllocError>
    ensures { OnOk result (out.new.items ≡ out.old.items ++ evidence_reason_text (auto_not_closed rule states.now target)) }
{
    put_all(
        out,
        &[
            Piece::Text(b"auto not closed rule "),
            Piece::Number(rule),
            Piece::Text(b" states"),
            Piece::States(states),
            Piece::Text(b" to "),
            Piece::Number(target),
        ],
    )
}

fn put_evidence(out: &mut Vec<u8>, reason: &EvidenceReason) -> Result<(), AllocError>
    ensures { OnOk result (out.new.items ≡ out.old.items ++ evidence_reason_text (evidence_reason_view reason.now)) }
{
    match reason {
        EvidenceReason::NotAllowed => put_words(out, b"not allowed"),
        EvidenceReason::NotRoot => put_words(out, b"trivial not root"),
        EvidenceReason::SidesDiffer => put_words(out, b"trivial sides differ"),
        EvidenceReason::TcapUnifies => put_words(out, b"tcap unifies"),
        EvidenceReason::TcapLarge => put_words(out, b"tcap large"),
        EvidenceReason::ConflictNumber => put_words(out, b"conflict number"),
        EvidenceReason::ConflictLeft => put_words(out, b"conflict left sides"),
        EvidenceReason::ConflictUnifies => put_words(out, b"conflict unifies"),
        EvidenceReason::ConflictLarge => put_words(out, b"conflict large"),
        EvidenceReason::AutoNumber => put_words(out, b"auto number"),
        EvidenceReason::AutoAny => put_words(out, b"auto state 0"),
        EvidenceReason::AutoMisses => put_words(out, b"auto misses"),
        EvidenceReason::AutoWide { rule } => put_number(out, b"auto wide rule ", *rule),
        EvidenceReason::AutoNotClosed {
            rule,
            states,
            target,
        } => put_not_closed(out, *rule, states, *target),
        EvidenceReason::AutoWideRight => put_words(out, b"auto wide right side"),
        EvidenceReason::AutoReaches => put_words(out, b"auto reaches"),
        EvidenceReason::JoinLeft(bad) => put_bad_step(out, b"join left step ", bad),
        EvidenceReason::JoinRight(bad) => put_bad_step(out, b"join right step ", bad),
        EvidenceReason::JoinDiffers => put_words(out, b"join ends differ"),
        EvidenceReason::UnfeasibleNumber => put_words(out, b"unfeasible number"),
        EvidenceReason::UnfeasibleFirst(bad) => put_bad_step(out, b"unfeasible first step ", bad),
        EvidenceReason::UnfeasibleSecond(bad) => put_bad_step(out, b"unfeasible second step ", bad),
        EvidenceReason::FirstReducible => put_words(out, b"unfeasible first reducible"),
        EvidenceReason::SecondReducible => put_words(out, b"unfeasible second reducible"),
        EvidenceReason::UnfeasibleUnifies => put_words(out, b"unfeasible unifies"),
        EvidenceReason::UnfeasibleLarge => put_words(out, b"unfeasible large"),
    }
}

// The reason of an entry's evidence, behind the entry's kind and number.
fn put_entry(
    out: &mut Vec<u8>,
    what: &'static [u8],
    entry: u32,
    reason: &EvidenceReason,
) -> Result<(), AllocError>
    ensures { OnOk result (out.new.items ≡ out.old.items ++ ((what.now ++ (decimal entry ++ codes " ")) ++ evidence_reason_text (evidence_reason_view reason.now))) }
{
    put_all(
        out,
        &[Piece::Text(what), Piece::Number(entry), Piece::Text(b" ")],
    )?;
    put_evidence(out, reason)
}

fn put_two(out: &mut Vec<u8>, rule: u32, cond: u32) -> Result<(), AllocError>
    ensures { OnOk result (out.new.items ≡ out.old.items ++ (codes "irreducible rule " ++ (decimal rule ++ (codes " condition " ++ decimal cond)))) }
{
    put_all(
        out,
        &[
            Piece::Text(b"irreducible rule "),
            Piece::Number(rule),
            Piece::Text(b" condition "),
            Piece::Number(cond),
        ],
    )
}

// Why a step that simplifies is not good.
fn put_simplification(out: &mut Vec<u8>, reason: &SimpReason) -> Result<(), AllocError>
    ensures { OnOk result (out.new.items ≡ out.old.items ++ simplification_reason_text (simp_reason_view reason.now)) }
{
    match reason {
        SimpReason::NoRule => put_words(out, b"no such rule"),
        SimpReason::NoCond => put_words(out, b"no such condition"),
        SimpReason::NotInline => put_words(out, b"inline"),
        SimpReason::TooLarge => put_words(out, b"large"),
        SimpReason::Evidence(reason) => put_evidence(out, reason),
    }
}

fn put_step(out: &mut Vec<u8>, step: u32, reason: &SimpReason) -> Result<(), AllocError>
    ensures { OnOk result (out.new.items ≡ out.old.items ++ ((codes "simplify " ++ (decimal step ++ codes " ")) ++ simplification_reason_text (simp_reason_view reason.now))) }
{
    put_all(
        out,
        &[
            Piece::Text(b"simplify "),
            Piece::Number(step),
            Piece::Text(b" "),
        ],
    )?;
    put_simplification(out, reason)
}

fn put_rejection(
    out: &mut Vec<u8>,
    names: Option<&Names>,
    reason: &Rejected,
) -> Result<(), AllocError>
    ensures { OnOk result (out.new.items ≡ out.old.items ++ rejection_text (option_copied names.entry) (rejected_view reason.now)) }
{
    match reason {
        Rejected::ClassFails(blame) => put_blame(out, names, blame),
        Rejected::NotIrreducible { rule, cond } => put_two(out, *rule, *cond),
        Rejected::MeasureFails(reason) => put_measure(out, *reason),
        Rejected::UnravelLarge { rule } => put_number(out, b"unraveling large rule ", *rule),
        Rejected::PairTooLarge { inner, pos, outer } => put_place(
            out,
            b"overlap large ",
            *inner,
            pos,
            *outer,
        ),
        Rejected::TooManyPairs => put_words(out, b"overlaps too many"),
        Rejected::PairMissing { inner, pos, outer } => put_place(
            out,
            b"pair missing ",
            *inner,
            pos,
            *outer,
        ),
        Rejected::PairExtra { entry } => put_number(out, b"pair extra ", *entry),
        Rejected::EvidenceFails { entry, reason } => put_entry(out, b"pair ", *entry, reason),
        Rejected::Foreign { which } => put_number(out, b"peak foreign ", *which),
        Rejected::FirstBad(bad) => put_bad_step(out, b"peak first step ", bad),
        Rejected::SecondBad(bad) => put_bad_step(out, b"peak second step ", bad),
        Rejected::SameTerm => put_words(out, b"peak same term"),
        Rejected::NotNormal { which, pos, rule } => put_place(
            out,
            b"peak not normal ",
            *which,
            pos,
            *rule,
        ),
        Rejected::RedexExtra { entry } => put_number(out, b"peak redex extra ", *entry),
        Rejected::RedexFails { entry, reason } => put_entry(out, b"peak redex ", *entry, reason),
        Rejected::CapsUnify => put_words(out, b"peak caps unify"),
        Rejected::CapsLarge => put_words(out, b"peak caps large"),
        Rejected::SimpFails { step, reason } => put_step(out, *step, reason),
    }
}

/// The line that says why a certificate is rejected. Without names variables are told by number.
pub fn rejection_line(
    alloc: Global,
    names: Option<&Names>,
    reason: &Rejected,
) -> Result<Vec<u8>, AllocError>
    ensures { IfOk result (λ v. v.items ≡ rejected_line (option_copied names.entry) (rejected_view reason.now)) }
{
    let mut text = Vec::from_slice(alloc, b"REJECTED ")?;
    put_rejection(&mut text, names, reason)?;
    text.push(b'\n')?;
    Ok(text)
}
