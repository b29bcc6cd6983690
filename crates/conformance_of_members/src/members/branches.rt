// Branches as words; no branch is read of a word.

use crate::members::lists::{numbers_word, with_word};
use conformance_messages::{Parted, Parts};
use conformance_rows::fault::Fault;
use conformance_rows::words::{Worded, copied, records_word, text_word};
use sample_recursive::branch::Branch;
use std::alloc::Global;
use std::marker::PhantomData;

/// The words of branches. It has a parameter since the checker refuses the statement of the impls below without one:
/// "the import `denote.Param` was announced, and nothing of it was used".
pub struct Branches<T> {
    of: PhantomData<T>,
}

// The word of a branch on which branches stand at most so many levels high.
fn branch_word(alloc: Global, branch: &Branch, levels: u32) -> Result<String, Fault> {
    if levels == 0 {
        return copied(alloc, "..");
    }
    let mut branches = String::new(alloc);
    for one in branch.branches.iter() {
        let word = branch_word(alloc, one, levels - 1)?;
        branches = with_word(alloc, branches.as_str(), word.as_str())?;
    }
    let name = text_word(alloc, branch.name.as_str())?;
    let leaves = numbers_word(alloc, branch.leaves.as_slice())?;
    let rest = records_word(alloc, &branch.unknown_fields)?;
    Ok(format!(in alloc; "({name}|[{leaves}]|[{branches}]|{rest})")?)
}

impl<T> Worded<Branches<T>> for Branch {
    fn word(&self, alloc: Global) -> Result<String, Fault> {
        branch_word(alloc, self, 102)
    }

    fn of_word(_alloc: Global, _word: &str) -> Result<Branch, Fault> {
        Err(Fault::Form)
    }
}

impl<T> Parted<Branches<T>> for Branch {
    fn parts(&self, parts: &mut Parts<Branches<T>>) {
        parts.value(1, &self.name);
        parts.list(2, self.leaves.as_slice());
        parts.list(3, self.branches.as_slice());
        parts.kept(&self.unknown_fields);
    }
}
