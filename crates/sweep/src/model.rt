// The pages as the operations make them, computed by hand: 64 numbers, and 64 contents of 224 bytes.
use kinds::CONTENTS;
use sets::Number;

type Contents = [u8; CONTENTS];

#[derive(Clone, Copy)]
struct Page {
    number: u32,
    contents: Contents,
}

#[derive(Drop)]
pub struct Model {
    pages: [Page; 64],
}

// Contents with bytes laid over them.
fn patched(old: Contents, offset: u8, bytes: &[u8]) -> Contents {
    let mut new = old;
    for (place, byte) in new.iter_mut().skip(usize::from(offset)).zip(bytes) {
        *place = *byte;
    }
    new
}

impl Model {
    // Blank pages with number 0.
    pub fn blank() -> Model {
        let blank = Page {
            number: 0,
            contents: [0; CONTENTS],
        };
        Model { pages: [blank; 64] }
    }

    fn held(&self, page: u8) -> Contents {
        self.pages
            .get(usize::from(page))
            .map_or([0; CONTENTS], |page| page.contents)
    }

    fn put(&mut self, page: u8, number: u32, contents: Contents) {
        if let Some(place) = self.pages.get_mut(usize::from(page)) {
            *place = Page { number, contents };
        }
    }

    fn copy(&mut self, from: u8, to: u8, count: u8, number: u32) {
        for (from, to) in (from..64).zip(to..64).take(usize::from(count)) {
            self.put(to, number, self.held(from));
        }
    }

    fn swap(&mut self, a: u8, b: u8, number: u32) {
        let (in_a, in_b) = (self.held(a), self.held(b));
        self.put(a, number, in_b);
        self.put(b, number, in_a);
    }

    // Does one operation, by its body.
    pub fn apply(&mut self, number: u32, body: &[u8]) {
        match body {
            [1, page, offset, bytes @ ..] => {
                let new = patched(self.held(*page), *offset, bytes);
                self.put(*page, number, new);
            }
            [2, page, byte] => self.put(*page, number, [*byte; CONTENTS]),
            [3, from, to, count] => self.copy(*from, *to, *count, number),
            [4, a, b] => self.swap(*a, *b, number),
            _ => {}
        }
    }

    // Whether an image has the page's number and contents.
    pub fn same(&self, page: u32, image: &[u8; 256]) -> bool {
        self.pages.get(page as usize).is_some_and(|page| {
            page.number == u32::read_at(image, 0) && image[4..228] == page.contents[..]
        })
    }
}
