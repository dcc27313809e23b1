ghost use Rattle.std.specs.Prelude.{◌≡◌, ℕ, List, Option, IfOk, IsOkAnd};
ghost use Rattle.std.specs.Option.{option_copied};
ghost use Rattle.tables.specs.Words.{Begins, NamesNode};
ghost use Rattle.tables.specs.declared.node_word.NodeWordError.TheVariants.{Number};

use nodes::node::Node;
use std::num::ParseIntError;
use std::str::FromStr;
use thiserror::Error;

// A node as a word of a table: `DATA,CHILD,DATAINDEX,CHILDRENINDEX`.
#[derive(Clone, Copy)]
pub struct NodeWord(pub Node);

// Why a word is no node.
#[derive(Debug, Drop, Error)]
pub enum NodeWordError {
    #[error("{0}")]
    Number(ParseIntError),
    #[error("no child bitmap")]
    NoChildBitmap,
    #[error("no data index")]
    NoDataIndex,
    #[error("no children index")]
    NoChildrenIndex,
    #[error("a node has four numbers")]
    MoreThanFour,
}

impl From<ParseIntError> for NodeWordError {
    ghost from_gives = { λ e r. r ≡ Number e };

    fn from(e: ParseIntError) -> NodeWordError {
        NodeWordError::Number(e)
    }
}

// The number before the first comma, and the text behind that comma, if there is one.
#[tactic(auto, using(crate::proofs::Numerals::alone, crate::proofs::Numerals::followed))]
fn first_number(text: &str) -> Result<(u32, Option<&str>), ParseIntError>
    ensures sound { IfOk result (λ x. Begins text.now x.0 (option_copied x.1)) }
    ensures complete { (n : ℕ) (rest : Option (List ℕ)) → Begins text.now n rest → IsOkAnd result (λ x. (x.0 ≡ n) × (option_copied x.1 ≡ rest)) }
{
    match text.split_once(',') {
        None => Ok((text.parse()?, None)),
        Some((number, rest)) => Ok((number.parse()?, Some(rest))),
    }
}

impl FromStr for NodeWord {
    type Err = NodeWordError;

    ghost from_str_gives = { NamesNode };

    fn from_str(word: &str) -> Result<NodeWord, NodeWordError> {
        let (data_bitmap, rest) = first_number(word)?;
        let (child_bitmap, rest) = first_number(rest.ok_or(NodeWordError::NoChildBitmap)?)?;
        let (data_idx, rest) = first_number(rest.ok_or(NodeWordError::NoDataIndex)?)?;
        let (children_idx, rest) = first_number(rest.ok_or(NodeWordError::NoChildrenIndex)?)?;
        match rest {
            Some(_) => Err(NodeWordError::MoreThanFour),
            None => Ok(NodeWord(Node {
                data_bitmap,
                child_bitmap,
                data_idx,
                children_idx,
            })),
        }
    }
}
