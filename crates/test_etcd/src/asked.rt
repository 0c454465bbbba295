//! What the words of a call ask for. All of them are checked before a journal is taken over.

use anyhow::{Context, Result, bail};

/// What is to be done with a journal.
#[derive(Clone, Copy)]
pub(crate) enum Order<'a> {
    /// Settle the lines `word 0`, `word 1` and so on, `count` lines.
    Append { word: &'a str, count: u32 },
    /// The same, and rewrite the text after each 16 lines.
    Rewrite { word: &'a str, count: u32 },
    /// Print what was found.
    Read,
}

/// An order, and the journal that it is for.
#[derive(Clone, Copy)]
pub(crate) struct Asked<'a> {
    /// The members of etcd, HOST:PORT,HOST:PORT and so on.
    pub(crate) members: &'a str,
    /// The name of the journal.
    pub(crate) name: &'a str,
    pub(crate) order: Order<'a>,
}

/// Returns what these words ask for, of which the first is the program's name.
///
/// Refuses too few words, too many, an unknown order, and a count that is no number.
pub(crate) fn read_words(words: &[String]) -> Result<Asked<'_>> {
    let (Some(order), Some(members), Some(name)) = (words.get(1), words.get(2), words.get(3)) else {
        bail!("words are missing");
    };
    let order = order_of(order.as_str(), words)?;
    Ok(Asked {
        members: members.as_str(),
        name: name.as_str(),
        order,
    })
}

// Returns the order of this name, with its own words, which are behind those of each order.
fn order_of<'a>(order: &str, words: &'a [String]) -> Result<Order<'a>> {
    if order == "read" {
        end_after(words, 4)?;
        return Ok(Order::Read);
    }
    let rewrites = order == "rewrite";
    if !rewrites && order != "append" {
        bail!("unknown order: {order}");
    }
    let (word, count) = lines_of(words)?;
    if rewrites {
        Ok(Order::Rewrite { word, count })
    } else {
        Ok(Order::Append { word, count })
    }
}

// Returns the word of each line, and how many lines are asked for.
fn lines_of(words: &[String]) -> Result<(&str, u32)> {
    let (Some(word), Some(count)) = (words.get(4), words.get(5)) else {
        bail!("words are missing");
    };
    end_after(words, 6)?;
    let count = count.as_str().parse::<u32>().context("the count")?;
    Ok((word.as_str(), count))
}

// Refuses more than `most` words.
fn end_after(words: &[String], most: usize) -> Result<()> {
    if words.len() > most {
        bail!("there are too many words");
    }
    Ok(())
}
