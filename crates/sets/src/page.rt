// The number of one of the 64 pages.
ghost use Rattle.std.specs.Prelude.{◌≡◌, ◌<◌, ◌≤◌, MatchOption};

// A page, by its number.
#[derive(Clone, Copy, PartialEq, Eq, Debug)]
pub struct Page {
    pub number: u32,
    ghost known: { number < 64 },
}

impl Page {
    // The page of that number; none from 64 on.
    pub fn new(number: u32) -> Option<Page>
        ensures { MatchOption result (64 ≤ number) (λ page. page.number ≡ number) }
    {
        if number < 64 {
            Some(Page { number })
        } else {
            None
        }
    }

    // The page's place in a table of the 64 pages.
    pub fn index(self) -> usize
        ensures { result ≡ self.number }
    {
        self.number as usize
    }
}
