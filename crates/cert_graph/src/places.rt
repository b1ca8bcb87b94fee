//! Places: the octets by which an item is linked, its name, its key and its key identifier.

ghost use Rattle.std.specs.Prelude.{◌≡◌, option_map};
ghost use Rattle.cert_graph.specs.Places.{part_of, text_at};

/// The octets of a place's parts, each `None` if there is none.
#[derive(Clone, Copy, Debug)]
pub struct Place<'a> {
    pub name: Option<&'a [u8]>,
    pub key: Option<&'a [u8]>,
    pub id: Option<&'a [u8]>,
}

/// One of a place's parts.
#[derive(Clone, Copy, Debug)]
pub enum Part {
    Name,
    Key,
    Id,
}

impl<'a> Place<'a> {
    pub(crate) fn text(&self, part: Part) -> Option<&'a [u8]>
        ensures { result ≡ part_of part self.now }
    {
        match part {
            Part::Name => self.name,
            Part::Key => self.key,
            Part::Id => self.id,
        }
    }
}

/// The text of a place by its number; none past the last.
pub(crate) fn text_at<'a>(all: &[Place<'a>], part: Part, number: usize) -> Option<&'a [u8]>
    ensures { option_map (λ t. t.now) result ≡ text_at part all.now number }
{
    match all.get(number) {
        Some(place) => place.text(part),
        None => None,
    }
}
