// The page that instructions are fetched from.
ghost use Rattle.std.specs.Prelude.{◌≡◌, ℕ, ◌%◌, List, IfSome};
ghost use Rattle.std.specs.Option.{option_map};
ghost use Rattle.rv_pages.specs.Prelude.{page_numbers, word_at};
ghost use Rattle.rv_machine.specs.CodePage.{IsFound};

use rv_pages::Pages;

// The bytes of a page, as a part of an address.
const SIZE: u32 = 4096;

/// The page of the last fetched instruction, with its index. While instructions come from it, it isn't looked up again.
#[derive(Clone, Copy)]
pub(crate) struct CodePage {
    number: u32,
    index: u32,
}

impl CodePage {
    /// No page: no page has that number.
    pub(crate) fn none() -> CodePage
        ensures { (numbers : List ℕ) → IsFound numbers result }
    {
        CodePage {
            number: u32::MAX,
            index: 0,
        }
    }

    /// The word at an address that is aligned to words, if it is mapped.
    #[inline(always)]
    pub(crate) fn fetch(&mut self, pages: &Pages, at: u32) -> Option<u32>
        requires aligned { at % 4 ≡ 0 }
        requires found { IsFound (page_numbers pages.now) self.old }
        ensures word { result ≡ word_at pages.now at }
        ensures found { IsFound (page_numbers pages.now) self.new }
    {
        if at / SIZE != self.number {
            let (page, word) = self.turned(pages, at)?;
            *self = page;
            return Some(word);
        }
        Some(pages.load32_in(self.index, at))
    }

    // The word at an address, if it is mapped, and the page that it is in.
    #[inline(never)]
    fn turned(self, pages: &Pages, at: u32) -> Option<(CodePage, u32)>
        requires { IsFound (page_numbers pages.now) self }
        ensures word { option_map (λ p. p.1) result ≡ word_at pages.now at }
        ensures found { IfSome result (λ p. IsFound (page_numbers pages.now) p.0) }
    {
        let word = pages.load32(at)?;
        let number = at / SIZE;
        match pages.index_of(number) {
            Some(index) => Some((CodePage { number, index }, word)),
            None => Some((self, word)),
        }
    }
}
