// Nodes and MessageSets as words.

use crate::nodes::Nodes;
use buffa_map::map_codec::MapWalk;
use buffa_wire::Enumeration;
use conformance_rows::fault::Fault;
use conformance_rows::outcome::in_words;
use conformance_rows::words::{Worded, copied, joined, records_word, text_word};
use sample_node::node::Node;
use sample_node::shade::Shade;
use sample_set_msg::SetMsg;
use std::alloc::Global;
use std::collections::BTreeMap;

// Pairs so far, and one pair more.
fn with_pair(alloc: Global, pairs: &str, key: &str, value: &str) -> Result<String, Fault> {
    let comma = if pairs.is_empty() { "" } else { "," };
    let pair = joined(alloc, key, "=", value)?;
    joined(alloc, pairs, comma, pair.as_str())
}

// Scores in the order of their keys.
fn scores_word(alloc: Global, scores: &BTreeMap<String, i32>) -> Result<String, Fault> {
    let mut pairs = String::new(alloc);
    for (key, score) in scores.storage_iter() {
        let key = text_word(alloc, key.as_str())?;
        let score = in_words(alloc, score)?;
        pairs = with_pair(alloc, pairs.as_str(), key.as_str(), score.as_str())?;
    }
    Ok(pairs)
}

// Shades in the order of their keys.
fn shades_word(alloc: Global, shades: &BTreeMap<i32, Shade>) -> Result<String, Fault> {
    let mut pairs = String::new(alloc);
    for (key, shade) in shades.storage_iter() {
        let key = in_words(alloc, key)?;
        let shade = in_words(alloc, &shade.to_i32())?;
        pairs = with_pair(alloc, pairs.as_str(), key.as_str(), shade.as_str())?;
    }
    Ok(pairs)
}

// The words of a node that has at most so many levels below its own.
fn node_word(alloc: Global, node: &Node, levels: u32) -> Result<String, Fault> {
    if levels == 0 {
        return copied(alloc, "..");
    }
    let mut children = String::new(alloc);
    for (key, child) in node.children.storage_iter() {
        let key = in_words(alloc, key)?;
        let child = node_word(alloc, child, levels - 1)?;
        children = with_pair(alloc, children.as_str(), key.as_str(), child.as_str())?;
    }
    let scores = scores_word(alloc, &node.scores)?;
    let shades = shades_word(alloc, &node.shades)?;
    let rest = records_word(alloc, &node.unknown_fields)?;
    Ok(format!(in alloc; "({scores}|{children}|{shades}|{rest})")?)
}

// The scores, the children and the shades by their keys, and what isn't declared: `("a"=1|1=(|||)|7=1|2807)`; no value
// is read of a word.
impl Worded<Nodes> for Node {
    fn word(&self, alloc: Global) -> Result<String, Fault> {
        node_word(alloc, self, 102)
    }

    fn of_word(_alloc: Global, _word: &str) -> Result<Node, Fault> {
        Err(Fault::Form)
    }
}

// The records, an Item as a record of its type id; no value is read of a word.
impl Worded<Nodes> for SetMsg {
    fn word(&self, alloc: Global) -> Result<String, Fault> {
        let digits = records_word(alloc, &self.unknown_fields)?;
        joined(alloc, "x", digits.as_str(), "")
    }

    fn of_word(_alloc: Global, _word: &str) -> Result<SetMsg, Fault> {
        Err(Fault::Form)
    }
}
