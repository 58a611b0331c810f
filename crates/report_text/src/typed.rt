// What the types of the values of blocks say of them. These calls change nothing; a caller learns the ranges by them.
ghost use Rattle.std.specs.Prelude.{All};
ghost use Rattle.report_text.specs.Values.{IsU16, IsWithdrawLine};
ghost use Rattle.report_text.specs.Typed.{IsTypedBlock, IsTypedHit, IsTypedLoadLine, IsTypedSearchLine};

use crate::{Block, LoadLine, SearchLine, WithdrawLine};
use htss_defs::Hit;

/// The numbers and the names of these blocks are of their types.
pub fn are_typed(blocks: &[Block])
    ensures { All IsTypedBlock blocks.now }
{
    for block in blocks {
        is_typed(block);
    }
}

fn is_typed(block: &Block)
    ensures { IsTypedBlock block.now }
{
    match block {
        Block::Load {
            line,
            file,
            answers,
        } => {
            let _line = *line;
            let _file = file.text();
            are_load_lines(answers.as_slice());
        }
        Block::Withdraw {
            line,
            number,
            answer,
        } => {
            let (_line, _number) = (*line, *number);
            is_withdraw_line(*answer);
        }
        Block::Search { line, file, answer } => {
            let _line = *line;
            let _file = file.text();
            is_search_line(answer);
        }
    }
}

fn are_load_lines(answers: &[LoadLine])
    ensures { All IsTypedLoadLine answers.now }
{
    for answer in answers {
        is_load_line(answer);
    }
}

fn is_load_line(answer: &LoadLine)
    ensures { IsTypedLoadLine answer.now }
{
    match answer {
        LoadLine::Published { number, name } => {
            let _number = *number;
            let _name = name.bytes();
        }
        LoadLine::Refused { place, line, .. } => {
            let (_place, _line) = (*place, *line);
        }
        LoadLine::DataFull { place, left, need } => {
            let (_place, _left, _need) = (*place, *left, *need);
        }
        LoadLine::NoPage { place } => {
            let _place = *place;
        }
        LoadLine::ChainFull { place, pages } => {
            let (_place, _pages) = (*place, *pages);
        }
        LoadLine::LogFull { place, front } => {
            let (_place, _front) = (*place, *front);
        }
    }
}

fn is_withdraw_line(answer: WithdrawLine)
    ensures { IsWithdrawLine answer }
{
    match answer {
        WithdrawLine::At { .. } => {}
        WithdrawLine::Unknown { .. } => {}
        WithdrawLine::Gone { .. } => {}
        WithdrawLine::LogFull { .. } => {}
    }
}

fn is_search_line(answer: &SearchLine)
    ensures { IsTypedSearchLine answer.now }
{
    match answer {
        SearchLine::Hits {
            front,
            hits,
            rows,
            records,
        } => {
            let (_front, _rows, _records) = (*front, *rows, *records);
            are_hits(hits.as_slice());
        }
        SearchLine::OverBudget { front, budget } => {
            let (_front, _budget) = (*front, *budget);
        }
        SearchLine::Refused { line, .. } => {
            let _line = *line;
        }
    }
}

fn are_hits(hits: &[Hit])
    ensures { All IsTypedHit hits.now }
{
    for hit in hits {
        is_hit(hit);
    }
}

fn is_hit(hit: &Hit)
    ensures { IsTypedHit hit.now }
{
    let _number = hit.number;
    let _name = hit.name.bytes();
    are_places(hit.map.as_slice());
}

fn are_places(places: &[u16])
    ensures { All IsU16 places.now }
{
    for place in places {
        let _place = *place;
    }
}
