// Contexts, step by step.

use buffa_wire::{DecodeContext, DecodeError};
use conformance_rows::case::Case;
use conformance_rows::fault::Fault;
use conformance_rows::mark::Mark;
use conformance_rows::outcome::{Outcome, budget_of, got, in_words, told, with_left};
use conformance_rows::words::{joined, push_word};
use std::alloc::Global;

// What is done in a context.
#[derive(Clone, Copy)]
enum Deed {
    // An unknown field is spent.
    Unknown,
    // Units are spent.
    Units(usize),
    // The steps behind are done one level down.
    Descend,
}

// A deed, and its answer.
#[derive(Clone, Copy)]
struct Step {
    deed: Deed,
    answer: Option<Result<(), DecodeError>>,
}

// The deed of a word: `unknown`, `units:28`, `descend`.
fn deed_of(word: &str) -> Result<Deed, Fault> {
    match word.split_once(':') {
        Some(("units", count)) => Ok(Deed::Units(count.parse::<u64>()? as usize)),
        None if word == "unknown" => Ok(Deed::Unknown),
        None if word == "descend" => Ok(Deed::Descend),
        _ => Err(Fault::Form),
    }
}

// The steps of words.
fn steps_of(alloc: Global, words: &str) -> Result<Vec<Step>, Fault> {
    let mut steps = Vec::new(alloc);
    for word in words.split_ascii_whitespace() {
        let deed = deed_of(word)?;
        steps.push(Step { deed, answer: None })?;
    }
    Ok(steps)
}

// Does the steps in order, up to a level that isn't there; the depth that is left.
fn do_all(ctx: DecodeContext<'_>, steps: &mut [Step]) -> u32 {
    let mut ctx = ctx;
    for step in steps.iter_mut() {
        match step.deed {
            Deed::Unknown => step.answer = Some(ctx.register_unknown_field()),
            Deed::Units(count) => step.answer = Some(ctx.register_element_memory(count)),
            Deed::Descend => match ctx.descend() {
                Ok(inner) => {
                    ctx = inner;
                    step.answer = Some(Ok(()));
                }
                Err(fault) => {
                    step.answer = Some(Err(fault));
                    return 0;
                }
            },
        }
    }
    ctx.depth()
}

// Puts the answer of a step behind words, if it was done.
fn push_answer(alloc: Global, words: &mut String, step: Step) -> Result<(), Fault> {
    if let Some(answer) = step.answer {
        let word = told(alloc, answer)?;
        push_word(words, word.as_str())?;
    }
    Ok(())
}

// The answers of steps, up to the last that was done.
fn answers(alloc: Global, steps: &[Step]) -> Result<String, Fault> {
    let mut words = String::new(alloc);
    for step in steps {
        push_answer(alloc, &mut words, *step)?;
    }
    Ok(words)
}

// The depth that is left.
fn depth_told(alloc: Global, depth: u32) -> Result<String, Fault> {
    let depth = in_words(alloc, &depth)?;
    joined(alloc, "depth ", depth.as_str(), "")
}

/// What steps in a context answer, and what is left then.
pub fn context(alloc: Global, case: &Case<'_>, mark: &mut Mark) -> Result<Outcome, Fault> {
    let mut steps = steps_of(alloc, case.input())?;
    let depth = case.depth()?;
    let mut budget = budget_of(case)?;
    mark.begin(alloc);
    let ctx = DecodeContext::new(depth, &mut budget);
    let depth = do_all(ctx, steps.as_mut_slice());
    let refused = mark.end();
    let words = answers(alloc, steps.as_slice());
    let depth = depth_told(alloc, depth);
    let outcome = Outcome::of_words(alloc, got(alloc, true), words, depth, refused);
    with_left(alloc, case, &budget, outcome, 0)
}
