//! The blocks of a file as an automaton over words: condition type, variables and rules, in any order, each at most once.
ghost use Rattle.std.specs.Prelude.{◌≡◌, IfOk, option_map};
ghost use Rattle.cops_syntax.specs.Flat as flat;
ghost use Rattle.cops_syntax.specs.Flat.{CanStep};
ghost use Rattle.cops_syntax.specs.View.{names_view};
ghost use Rattle.cops_syntax.specs.States.{word_view, rules_view, stage_view, blocks_view, passed, ended_file};

use crate::rules::Reading;
use crate::tree::{FileText, Name, RuleText};
use crate::word::Word;
use file_text::ConditionType;
use std::alloc::{AllocError, Global};
use std::{fmt, mem};

/// Why a word may not stand where it does, or the words may not end.
#[derive(Clone, Copy, Debug)]
pub enum SyntaxRefusal {
    /// A token that continues no text of the grammar, or an end that comes too early.
    Syntax,
    /// A block's title that is none of the three words.
    UnknownBlock,
    /// A block's title that an earlier block has.
    RepeatedBlock,
    /// A condition type that is neither `ORIENTED` nor `JOIN`.
    ConditionTypeOther,
    /// Whole blocks of which none has rules.
    MissingRules,
}

impl fmt::Display for SyntaxRefusal {
    fn fmt<W: fmt::Write>(&self, f: &mut fmt::Formatter<W>) -> fmt::Result {
        f.write_str(match self {
            SyntaxRefusal::Syntax => "syntax",
            SyntaxRefusal::UnknownBlock => "unknown block",
            SyntaxRefusal::RepeatedBlock => "repeated block",
            SyntaxRefusal::ConditionTypeOther => "condition type other",
            SyntaxRefusal::MissingRules => "missing rules",
        })
    }
}

// Where in a block the next word stands.
#[derive(Drop)]
enum Stage<'a> {
    Outside,
    Title,
    TypeWord,
    TypeEnd(ConditionType),
    Variables(Vec<Name<'a>>),
    Rules(Reading<'a>),
}

/// Blocks that are read, one word after the other: what the whole ones hold, and how far the next
/// one is.
#[derive(Drop)]
pub struct Blocks<'a> {
    condition_type: Option<ConditionType>,
    variables: Option<Vec<Name<'a>>>,
    rules: Option<Vec<RuleText<'a>>>,
    stage: Stage<'a>,
}

impl<'a> Blocks<'a> {
    /// No block yet.
    pub fn new() -> Self
        ensures { blocks_view result ≡ flat.begin }
    {
        Blocks {
            condition_type: None,
            variables: None,
            rules: None,
            stage: Stage::Outside,
        }
    }

    // A word outside of all blocks.
    fn begin(&mut self, word: Word<'a>) -> Option<SyntaxRefusal>
        ensures { passed result self.new ≡ flat.stage_step (blocks_view self.old) flat.outside (word_view word.entry) }
    {
        match word {
            Word::LeftParen => {
                self.stage = Stage::Title;
                None
            }
            _ => Some(SyntaxRefusal::Syntax),
        }
    }

    // A block begins, unless there was one of its title.
    fn enter(&mut self, again: bool, stage: Stage<'a>) -> Option<SyntaxRefusal>
        ensures { passed result self.new ≡ flat.enter (blocks_view self.old) again (stage_view stage.entry) }
    {
        if again {
            return Some(SyntaxRefusal::RepeatedBlock);
        }
        self.stage = stage;
        None
    }

    // A word behind a block's bracket.
    fn titled(&mut self, alloc: Global, word: Word<'a>) -> Option<SyntaxRefusal>
        ensures { passed result self.new ≡ flat.stage_step (blocks_view self.old) flat.at_title (word_view word.entry) }
    {
        let Word::Id(name) = word else {
            return Some(SyntaxRefusal::Syntax);
        };
        if name.is(b"CONDITIONTYPE") {
            let again = self.condition_type.is_some();
            self.enter(again, Stage::TypeWord)
        } else if name.is(b"VAR") {
            let again = self.variables.is_some();
            self.enter(again, Stage::Variables(Vec::new(alloc)))
        } else if name.is(b"RULES") {
            let again = self.rules.is_some();
            self.enter(again, Stage::Rules(Reading::new(alloc)))
        } else {
            Some(SyntaxRefusal::UnknownBlock)
        }
    }

    // A word behind the title of a condition type.
    fn typed(&mut self, word: Word<'a>) -> Option<SyntaxRefusal>
        ensures { passed result self.new ≡ flat.stage_step (blocks_view self.old) flat.at_type (word_view word.entry) }
    {
        let Word::Id(name) = word else {
            return Some(SyntaxRefusal::Syntax);
        };
        if name.is(b"ORIENTED") {
            self.stage = Stage::TypeEnd(ConditionType::Oriented);
            None
        } else if name.is(b"JOIN") {
            self.stage = Stage::TypeEnd(ConditionType::Join);
            None
        } else {
            Some(SyntaxRefusal::ConditionTypeOther)
        }
    }

    // A word behind a condition type.
    fn close_type(&mut self, condition_type: ConditionType, word: Word<'a>) -> Option<SyntaxRefusal>
        ensures { passed result self.new ≡ flat.stage_step (blocks_view self.old) (flat.at_type_end condition_type) (word_view word.entry) }
    {
        match word {
            Word::RightParen => {
                self.condition_type = Some(condition_type);
                self.stage = Stage::Outside;
                None
            }
            _ => Some(SyntaxRefusal::Syntax),
        }
    }

    // The block of variables ends.
    fn close_variables(&mut self, names: Vec<Name<'a>>)
        ensures { blocks_view self.new ≡ flat.with_variables (blocks_view self.old) (names_view names.entry.items) }
    {
        self.variables = Some(names);
        self.stage = Stage::Outside;
    }

    // The block of rules ends, where they are whole.
    fn close_rules(&mut self, rules: Option<Vec<RuleText<'a>>>) -> Option<SyntaxRefusal>
        ensures { passed result self.new ≡ flat.or_syntax (option_map (λ v. flat.with_rules (blocks_view self.old) (rules_view v.items)) rules.entry) }
    {
        let Some(rules) = rules else {
            return Some(SyntaxRefusal::Syntax);
        };
        self.rules = Some(rules);
        self.stage = Stage::Outside;
        None
    }

    /// The refusal that the word calls for, if it may not stand here; else the state is the one
    /// behind it. What a block holds so far grows in place, since a file has many words.
    pub fn step(
        &mut self,
        alloc: Global,
        word: Word<'a>,
    ) -> Result<Option<SyntaxRefusal>, AllocError>
        requires { CanStep (stage_view self.old.stage) }
        ensures { IfOk result (λ o. passed o self.new ≡ flat.step_blocks (blocks_view self.old) (word_view word.entry)) }
    {
        match &mut self.stage {
            Stage::Outside => Ok(self.begin(word)),
            Stage::Title => Ok(self.titled(alloc, word)),
            Stage::TypeWord => Ok(self.typed(word)),
            Stage::TypeEnd(condition_type) => {
                let condition_type = *condition_type;
                Ok(self.close_type(condition_type, word))
            }
            Stage::Variables(names) => match word {
                Word::Id(name) => {
                    names.push(name)?;
                    Ok(None)
                }
                Word::RightParen => {
                    let names = mem::replace(names, Vec::new(alloc));
                    self.close_variables(names);
                    Ok(None)
                }
                _ => Ok(Some(SyntaxRefusal::Syntax)),
            },
            Stage::Rules(reading) => {
                if reading.is_flat() && matches!(word, Word::RightParen) {
                    let rules = reading.finish(alloc)?;
                    return Ok(self.close_rules(rules));
                }
                if reading.step(alloc, word)? {
                    Ok(None)
                } else {
                    Ok(Some(SyntaxRefusal::Syntax))
                }
            }
        }
    }

    /// The file that ends here, or why none does.
    pub fn finish(self, alloc: Global) -> Result<FileText<'a>, SyntaxRefusal>
        ensures { ended_file result ≡ flat.finish (blocks_view self.entry) }
    {
        let Blocks {
            condition_type,
            variables,
            rules,
            stage,
        } = self;
        let Stage::Outside = stage else {
            return Err(SyntaxRefusal::Syntax);
        };
        let Some(rules) = rules else {
            return Err(SyntaxRefusal::MissingRules);
        };
        let variables = match variables {
            Some(names) => names,
            None => Vec::new(alloc),
        };
        Ok(FileText {
            condition_type,
            variables,
            rules,
        })
    }
}
