// How far a report is read.
ghost use Rattle.std.specs.Prelude.{◌≡◌, Some, IfOk};
ghost use Rattle.report_text.specs.ReportText.{is_published, published_count};
ghost use Rattle.report_lines.specs.declared.line.Line.TheVariants.{Load, Log, Search};
ghost use Rattle.report_read.specs.Stages.{after_answer, after_block, after_event, after_fresh, after_hit, step};
ghost use Rattle.report_read.specs.Stages.{with_block};
ghost use Rattle.report_read.specs.StageOf.{begun_of, maybe_stage, stage_of};

use htss_defs::{FileName, Hit, OutOfMemory, Shape};
use report_lines::Line;
use report_text::{
    Block, Blocks, Hits, LoadLine, LoadLines, LogLine, LogLines, Report, SearchLine,
};
use std::alloc::Global;

/// What the header said, and the blocks that are whole.
#[derive(Drop)]
pub struct Begun {
    pub shape: Shape,
    pub budget: u64,
    pub blocks: Vec<Block>,
}

/// How far a report is read.
#[derive(Drop)]
pub enum State {
    /// Nothing is read.
    Fresh,
    /// A block or the log may begin.
    Between {
        begun: Begun,
    },
    /// A load has begun.
    Loading {
        begun: Begun,
        line: u32,
        file: FileName,
        answers: Vec<LoadLine>,
    },
    /// A search has begun.
    Searching {
        begun: Begun,
        line: u32,
        file: FileName,
        at: u32,
        hits: Vec<Hit>,
    },
    /// The log has begun.
    Logging {
        begun: Begun,
        count: u32,
        events: Vec<LogLine>,
    },
    /// The report is whole.
    Ended {
        report: Report,
    },
}

impl State {
    /// The state after this line, or `None` exactly where no report has it there.
    pub fn step(self, alloc: Global, next: Line) -> Result<Option<State>, OutOfMemory>
        ensures { IfOk result (λ after. maybe_stage after ≡ step (stage_of self) next) }
    {
        match self {
            State::Fresh => Ok(after_fresh(alloc, next)),
            State::Between { begun } => after_block(alloc, begun, next),
            State::Loading {
                begun,
                line,
                file,
                answers,
            } => after_answer(begun, line, file, answers, next),
            State::Searching {
                begun,
                line,
                file,
                at,
                hits,
            } => after_hit(begun, line, file, at, hits, next),
            State::Logging {
                begun,
                count,
                events,
            } => after_event(begun, count, events, next),
            State::Ended { .. } => Ok(None),
        }
    }
}

// Only the header may be first.
fn after_fresh(alloc: Global, next: Line) -> Option<State>
    ensures { maybe_stage result ≡ after_fresh next }
{
    match next {
        Line::Header { shape, budget } => Some(State::Between {
            begun: Begun {
                shape,
                budget,
                blocks: Vec::new(alloc),
            },
        }),
        _ => None,
    }
}

// A block or the log begins.
fn after_block(alloc: Global, begun: Begun, next: Line) -> Result<Option<State>, OutOfMemory>
    ensures { IfOk result (λ after. maybe_stage after ≡ after_block (begun_of begun) next) }
{
    match next {
        Line::Load { line, file } => Ok(Some(load_begun(alloc, begun, line, file))),
        Line::Withdraw {
            line,
            number,
            answer,
        } => with_block(
            begun,
            Block::Withdraw {
                line,
                number,
                answer,
            },
        ),
        Line::Search { line, file, front } => {
            Ok(Some(search_begun(alloc, begun, line, file, front)))
        }
        Line::NotRead {
            line,
            file,
            at,
            code,
        } => with_block(
            begun,
            Block::Search {
                line,
                file,
                answer: SearchLine::Refused { line: at, code },
            },
        ),
        Line::Log { count } => Ok(Some(log_begun(alloc, begun, count))),
        _ => Ok(None),
    }
}

// A load begins.
fn load_begun(alloc: Global, begun: Begun, line: u32, file: FileName) -> State
    ensures { Some (stage_of result) ≡ after_block (begun_of begun) (Load line file) }
{
    State::Loading {
        begun,
        line,
        file,
        answers: Vec::new(alloc),
    }
}

// A search begins.
fn search_begun(alloc: Global, begun: Begun, line: u32, file: FileName, at: u32) -> State
    ensures { Some (stage_of result) ≡ after_block (begun_of begun) (Search line file at) }
{
    State::Searching {
        begun,
        line,
        file,
        at,
        hits: Vec::new(alloc),
    }
}

// The log begins.
fn log_begun(alloc: Global, begun: Begun, count: u32) -> State
    ensures { Some (stage_of result) ≡ after_block (begun_of begun) (Log count) }
{
    State::Logging {
        begun,
        count,
        events: Vec::new(alloc),
    }
}

// An answer of a load, or its end, which counts the records that were published.
fn after_answer(
    begun: Begun,
    line: u32,
    file: FileName,
    mut answers: Vec<LoadLine>,
    next: Line,
) -> Result<Option<State>, OutOfMemory>
    ensures { IfOk result (λ after. maybe_stage after ≡ after_answer (begun_of begun) line file answers.items next) }
{
    match next {
        Line::Answer { answer } => {
            answers.push(answer)?;
            Ok(Some(State::Loading {
                begun,
                line,
                file,
                answers,
            }))
        }
        Line::Loaded { count } => {
            if count as usize != published_count(answers.as_slice()) {
                return Ok(None);
            }
            with_block(
                begun,
                Block::Load {
                    line,
                    file,
                    answers: LoadLines::new(answers),
                },
            )
        }
        _ => Ok(None),
    }
}

// A hit of a search, or its end: how many hits there are, or that the budget is exceeded, which has no hits.
fn after_hit(
    begun: Begun,
    line: u32,
    file: FileName,
    at: u32,
    mut hits: Vec<Hit>,
    next: Line,
) -> Result<Option<State>, OutOfMemory>
    ensures { IfOk result (λ after. maybe_stage after ≡ after_hit (begun_of begun) line file at hits.items next) }
{
    match next {
        Line::OneHit { hit } => {
            hits.push(hit)?;
            Ok(Some(State::Searching {
                begun,
                line,
                file,
                at,
                hits,
            }))
        }
        Line::HitsEnd {
            count,
            rows,
            records,
        } => {
            if count as usize != hits.len() {
                return Ok(None);
            }
            let answer = SearchLine::Hits {
                front: at,
                hits: Hits::new(hits),
                rows,
                records,
            };
            with_block(begun, Block::Search { line, file, answer })
        }
        Line::OverBudget { budget } => {
            if !hits.is_empty() {
                return Ok(None);
            }
            let answer = SearchLine::OverBudget { front: at, budget };
            with_block(begun, Block::Search { line, file, answer })
        }
        _ => Ok(None),
    }
}

// The next event of the log, or its end, which comes after so many events as its first line counts.
fn after_event(
    begun: Begun,
    count: u32,
    mut events: Vec<LogLine>,
    next: Line,
) -> Result<Option<State>, OutOfMemory>
    ensures { IfOk result (λ after. maybe_stage after ≡ after_event (begun_of begun) count events.items next) }
{
    match next {
        Line::Event { number, event } => {
            if events.len() >= count as usize || number as usize != events.len() + 1 {
                return Ok(None);
            }
            events.push(event)?;
            Ok(Some(State::Logging {
                begun,
                count,
                events,
            }))
        }
        Line::End => {
            if events.len() != count as usize {
                return Ok(None);
            }
            Ok(Some(State::Ended {
                report: Report {
                    shape: begun.shape,
                    budget: begun.budget,
                    blocks: Blocks::new(begun.blocks),
                    events: LogLines::new(events),
                },
            }))
        }
        _ => Ok(None),
    }
}

// The block is whole.
fn with_block(mut begun: Begun, block: Block) -> Result<Option<State>, OutOfMemory>
    ensures { IfOk result (λ after. maybe_stage after ≡ Some (with_block (begun_of begun) block)) }
{
    begun.blocks.push(block)?;
    Ok(Some(State::Between { begun }))
}

// How many of the lines tell of a publication.
fn published_count(answers: &[LoadLine]) -> usize
    ensures { result ≡ published_count answers.now }
{
    answers.iter().filter(|answer| is_published(answer)).count()
}

// Whether the line tells of a publication.
fn is_published(answer: &LoadLine) -> bool
    ensures { result ≡ is_published answer.now }
{
    matches!(answer, LoadLine::Published { .. })
}
