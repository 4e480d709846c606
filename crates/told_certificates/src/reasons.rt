//! Why evidence is not valid, in words.
use cert_model::{BadStep, EvidenceReason};
use lens_pages::{Page, Piece};

// What is said of a reason without numbers of its own.
fn words_of(reason: &EvidenceReason) -> &'static str {
    match reason {
        EvidenceReason::NotAllowed => {
            "Certificates of this kind may not give this kind of evidence: for an almost orthogonal system it is trivial, tcap, auto or conflict, and with a measure tcap, auto, join or unfeasible."
        }
        EvidenceReason::NotRoot =>
            "The overlap is below the root, where equal sides are not enough.",
        EvidenceReason::SidesDiffer => "The two sides are different terms; one term is expected.",
        EvidenceReason::TcapUnifies => {
            "Caps do not refute the conditions: what no step can change of the left sides fits the right sides."
        }
        EvidenceReason::TcapLarge =>
            "The caps, or the terms that unification makes of them, are too large.",
        EvidenceReason::ConflictNumber => "There is no condition with one of the two numbers.",
        EvidenceReason::ConflictLeft =>
            "The two conditions have different left sides; one left side is expected.",
        EvidenceReason::ConflictUnifies => {
            "The two conditions may both be met: what no step can change of their right sides fits together."
        }
        EvidenceReason::ConflictLarge =>
            "The terms that unification makes of the right sides are too large.",
        EvidenceReason::AutoNumber => "There is no condition with this number.",
        EvidenceReason::AutoAny => {
            "State 0 does not accept every term: a transition f(0,..,0) 0 is expected for each symbol f, and | 0."
        }
        EvidenceReason::AutoMisses => {
            "The automaton does not accept the left side of the condition with state 0 for its variables."
        }
        EvidenceReason::AutoWideRight => {
            "The right side of the condition has more than 1,000,000 choices of states for its variables."
        }
        EvidenceReason::AutoReaches =>
            "The automaton accepts an instance of the right side of the condition.",
        EvidenceReason::JoinDiffers =>
            "The two derivations end at different terms; one term is expected.",
        EvidenceReason::UnfeasibleNumber => "There is no condition with this number.",
        EvidenceReason::FirstReducible => {
            "The first derivation ends at a term that may have a step: a left side of a rule fits an instance of a part of it."
        }
        EvidenceReason::SecondReducible => {
            "The second derivation ends at a term that may have a step: a left side of a rule fits an instance of a part of it."
        }
        EvidenceReason::UnfeasibleUnifies =>
            "The two derivations end at terms that have a common instance.",
        EvidenceReason::UnfeasibleLarge =>
            "The terms that unification makes of the two ends are too large.",
        _ => "",
    }
}

/// Tells where in a derivation a step is bad.
pub fn tell_path(page: &mut Page<'_>, margin: usize, derivation: &str, bad: &BadStep) {
    page.indent(margin);
    page.words(derivation);
    page.words(" breaks at step ");
    for (i, number) in bad.path.iter().enumerate() {
        if i > 0 {
            page.words(if i % 2 == 1 {
                ", in its condition "
            } else {
                ", at step "
            });
        }
        page.number(*number as usize);
    }
    page.words(":\n")
}

fn tell_not_closed(page: &mut Page<'_>, margin: usize, rule: u32, states: &[u32], target: u32) {
    page.indent(margin);
    page.put(
        "The automaton does not keep rule #",
        &[Piece::Number(rule as usize)],
    );
    for (i, state) in states.iter().enumerate() {
        page.words(if i == 0 { ": with the states " } else { " " });
        page.number(*state as usize);
    }
    page.words(if states.is_empty() {
        ": "
    } else {
        " for the variables "
    });
    page.put(
        "its left side reaches state #, and its right side does not.\n",
        &[Piece::Number(target as usize)],
    )
}

/// Tells why evidence is not valid.
pub fn tell_reason(page: &mut Page<'_>, margin: usize, reason: &EvidenceReason) {
    match reason {
        EvidenceReason::JoinLeft(bad) => tell_path(page, margin, "The first derivation", bad),
        EvidenceReason::JoinRight(bad) => tell_path(page, margin, "The second derivation", bad),
        EvidenceReason::UnfeasibleFirst(bad) => tell_path(
            page,
            margin,
            "The first derivation",
            bad,
        ),
        EvidenceReason::UnfeasibleSecond(bad) => {
            tell_path(page, margin, "The second derivation", bad)
        }
        EvidenceReason::AutoWide { rule } => page.line(
            margin,
            "The left side of rule # has more than 1,000,000 choices of states for its variables.",
            &[Piece::Number(*rule as usize)],
        ),
        EvidenceReason::AutoNotClosed {
            rule,
            states,
            target,
        } => tell_not_closed(page, margin, *rule, states, *target),
        _ => page.line(margin, "#", &[Piece::Words(words_of(reason))]),
    }
}
