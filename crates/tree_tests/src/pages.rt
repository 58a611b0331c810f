// The words of the pages of a board that was closed.
ghost use Rattle.board_core.specs.Loaded.{IsPage};

use board::Final;
use std::alloc::Global;
use std::test::Fail;

// The state and the sixteen words of a page.
#[derive(Clone, Copy, Drop)]
pub(crate) struct Page {
    pub(crate) state: u64,
    pub(crate) words: [u64; 16],
}

fn page_of(last: &Final, page: u32) -> Page
    requires { IsPage last.now.shape page }
{
    let mut words = [0; 16];
    for place in 0..16u8 {
        words[place as usize] = last.page_word(page, place);
    }
    Page {
        state: last.page_state(page),
        words,
    }
}

// All pages in their order. Page 1 stands first.
pub(crate) fn pages_of(alloc: Global, last: &Final) -> Result<Vec<Page>, Fail> {
    let mut pages = Vec::new(alloc);
    for index in 0..last.shape().pages {
        pages.push(page_of(last, index + 1))?;
    }
    Ok(pages)
}
