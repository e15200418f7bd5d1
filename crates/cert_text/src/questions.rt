//! The question of a certificate, and the first lines of its answer.

ghost use Rattle.std.specs.Prelude.{◌≡◌, IfOk};
ghost use Rattle.line_grammar.specs.Phrases.{Reads, text_at};
ghost use Rattle.line_grammar.specs.TokenLists.{list1_at};
ghost use Rattle.cert_text.specs.CertLines.{question_for, question_at, values_word, closed_word, budget_at, answer_for, answer_at, and_at};
ghost use Rattle.cert_text.specs.Written.{AreTexts, IsQuestion, IsAnswerLine};
ghost use Rattle.cert_text.specs.declared.answers.Kind.TheVariants.{Consistency, Implication};

use crate::answers::{AnswerLine, Kind};
use crate::cert::Question;
use line_grammar::{Phrase, Quoted, Tokens, Unread};
use rule_parser::DepLine;
use std::alloc::Global;
use text_lists::{Text, Texts};

/// The question.
pub struct QuestionLine;

/// The answer to a question about one tuple.
pub struct ConsistencyAnswer;

/// The answer to a question about two tuples.
pub struct ImplicationAnswer;

/// The second of two tuples.
pub struct SecondTuple;

fn question_for(alloc: Global, word: &Text, tokens: &mut Tokens<'_>) -> Result<Question, Unread>
    ensures exact { Reads (question_for word.now) tokens.old tokens.new result }
    ensures fit { IfOk result IsQuestion }
{
    if word.is("consistent") {
        Ok(Question::Consistent(tokens.name()?))
    } else if word.is("implies") {
        Ok(Question::Implies(DepLine::take(alloc, tokens)?))
    } else {
        Err(Unread::Absent)
    }
}

impl Phrase for QuestionLine {
    type Value = Question;

    ghost reads = { question_at };

    ghost is_fit = { IsQuestion };

    #[tactic(auto, unfolding(crate::specs::CertLines::question_at))]
    fn take(alloc: Global, tokens: &mut Tokens<'_>) -> Result<Question, Unread> {
        let word = tokens.name()?;
        question_for(alloc, &word, tokens)
    }
}

fn values_word(kind: Kind) -> &'static str
    ensures { result.now ≡ values_word kind }
{
    match kind {
        Kind::Consistency => "witness",
        Kind::Implication => "counter",
    }
}

/// The word of a tree that leaves no case open.
pub fn closed_word(kind: Kind) -> &'static str
    ensures { result.now ≡ closed_word kind }
{
    match kind {
        Kind::Consistency => "never",
        Kind::Implication => "implied",
    }
}

fn texts(alloc: Global, tokens: &mut Tokens<'_>) -> Result<Texts, Unread>
    ensures exact { Reads (list1_at text_at) tokens.old tokens.new result }
    ensures fit { IfOk result AreTexts }
{
    tokens.list1::<Quoted>(alloc)
}

fn budget(tokens: &mut Tokens<'_>) -> Result<AnswerLine, Unread>
    ensures exact { Reads budget_at tokens.old tokens.new result }
    ensures fit { IfOk result IsAnswerLine }
{
    let budget = tokens.number()?;
    if budget == 0 || 1_000_000 < budget {
        return Err(Unread::Absent);
    }
    Ok(AnswerLine::Spent(budget))
}

fn answer_for(
    alloc: Global,
    kind: Kind,
    word: &Text,
    tokens: &mut Tokens<'_>,
) -> Result<AnswerLine, Unread>
    ensures exact { Reads (answer_for kind word.now) tokens.old tokens.new result }
    ensures fit { IfOk result IsAnswerLine }
{
    if word.is(values_word(kind)) {
        Ok(AnswerLine::Values(texts(alloc, tokens)?))
    } else if word.is(closed_word(kind)) {
        Ok(AnswerLine::Closed)
    } else if word.is("spent") {
        budget(tokens)
    } else {
        Err(Unread::Absent)
    }
}

#[tactic(auto, unfolding(crate::specs::CertLines::answer_at))]
fn answer_at(alloc: Global, kind: Kind, tokens: &mut Tokens<'_>) -> Result<AnswerLine, Unread>
    ensures exact { Reads (answer_at kind) tokens.old tokens.new result }
    ensures fit { IfOk result IsAnswerLine }
{
    let word = tokens.name()?;
    answer_for(alloc, kind, &word, tokens)
}

impl Phrase for ConsistencyAnswer {
    type Value = AnswerLine;

    ghost reads = { answer_at Consistency };

    ghost is_fit = { IsAnswerLine };

    fn take(alloc: Global, tokens: &mut Tokens<'_>) -> Result<AnswerLine, Unread> {
        answer_at(alloc, Kind::Consistency, tokens)
    }
}

impl Phrase for ImplicationAnswer {
    type Value = AnswerLine;

    ghost reads = { answer_at Implication };

    ghost is_fit = { IsAnswerLine };

    fn take(alloc: Global, tokens: &mut Tokens<'_>) -> Result<AnswerLine, Unread> {
        answer_at(alloc, Kind::Implication, tokens)
    }
}

impl Phrase for SecondTuple {
    type Value = Texts;

    ghost reads = { and_at };

    ghost is_fit = { AreTexts };

    #[tactic(auto, unfolding(crate::specs::CertLines::and_at))]
    fn take(alloc: Global, tokens: &mut Tokens<'_>) -> Result<Texts, Unread> {
        tokens.word("and")?;
        texts(alloc, tokens)
    }
}
