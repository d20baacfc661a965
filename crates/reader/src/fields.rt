// A thin layer over the array of header fields: a struct that holds the lent head and a position.
ghost use Rattle.std.specs.Prelude.{◌≡◌};
ghost use Rattle.reader.specs.Promises.{Inside, element_in};

use header::Element;

// The lent head, where its array ends, and where the padding before the next element starts.
#[derive(Clone, Copy)]
pub struct FieldReader<'a> {
    pub head: &'a [u8],
    pub end: usize,
    pub at: usize,
}

impl<'a> FieldReader<'a> {
    fn new(head: &'a [u8], end: usize, at: usize) -> FieldReader<'a>
        ensures { (result.head ≡ head.entry) × (result.end ≡ end) × (result.at ≡ at) }
    {
        FieldReader { head, end, at }
    }

    // The element at the reader's position, in the head's own byte order.
    #[tactic(auto, using(crate::proofs::Elements::in_order))]
    fn element(self) -> Option<Element>
        requires { Inside self.head.now self.end self.at }
        ensures { result ≡ element_in self.entry.head.now self.entry.end self.entry.at }
    {
        super::element_at(super::order_of(self.head), self.head, self.end, self.at)
    }
}

// The same of a head and two numbers: who calls this one sees no reader.
pub fn field_at(head: &[u8], end: usize, from: usize) -> Option<Element>
    requires { Inside head.now end from }
    ensures { result ≡ element_in head.now end from }
{
    FieldReader::new(head, end, from).element()
}
