ghost use Rattle.std.specs.Prelude.{◌≡◌, ◌<◌, ◌^◌, ◌==◌, if◌then◌else◌};
ghost use Rattle.cert_text.specs.declared.place.Place.TheVariants as places;
ghost use Rattle.cert_text.specs.Places.{follows, wanted_of, count_of, may_begin, cuts_left, in_level, in_loose, close};

use crate::lines::CertLine;
use duality::Node;

/// What may come next in the text of a certificate, by counts alone: the line that is wanted, the number of
/// finished levels, and in a list of cuts or in a tree how many more are wanted beyond the next.
#[derive(Clone, Copy)]
pub enum Place {
    Head,
    Sizes,
    Choice,
    Values,
    Cuts,
    Cutting {
        wanted: u32,
    },
    Between {
        levels: u32,
    },
    Inside {
        levels: u32,
        wanted: u64,
    },
    Loose {
        levels: u32,
        wanted: u64,
        seen: bool,
    },
    After {
        levels: u32,
    },
    Over {
        levels: u32,
    },
}

/// The place after a line, where the line may come.
pub fn step(place: Place, line: &CertLine) -> Option<Place>
    requires wanted { wanted_of place < 2 ^ 63 }
    requires count { count_of place < 7 }
    ensures { result ≡ follows place line.now }
{
    match (place, line) {
        (Place::Head, CertLine::Head { .. }) => Some(Place::Sizes),
        (Place::Sizes, CertLine::Sizes { .. }) => Some(Place::Choice),
        (Place::Choice, CertLine::Choice(_)) => Some(Place::Values),
        (Place::Values, CertLine::Values(_)) => Some(Place::Cuts),
        (Place::Cuts, CertLine::Cuts(count)) => Some(cuts_left(*count)),
        (Place::Cutting { wanted }, CertLine::Cut(_)) => Some(cuts_left(wanted)),
        (Place::Between { levels }, line) => between(levels, line),
        (Place::Inside { levels, wanted }, CertLine::Node(node)) => in_level(levels, wanted, node),
        (
            Place::Loose {
                levels,
                wanted,
                seen,
            },
            CertLine::Node(node),
        ) => in_loose(levels, wanted, seen, node),
        (Place::After { levels }, CertLine::End(count)) => ends(levels, *count),
        _ => None,
    }
}

fn between(levels: u32, line: &CertLine) -> Option<Place>
    requires { levels < 7 }
    ensures { result ≡ follows (places.Between levels) line.now }
{
    match line {
        CertLine::Level(level) if may_begin(levels, *level) => Some(Place::Inside {
            levels,
            wanted: 0,
        }),
        CertLine::Unfinished(level) if may_begin(levels, *level) => Some(Place::Loose {
            levels,
            wanted: 0,
            seen: false,
        }),
        CertLine::End(count) => ends(levels, *count),
        _ => None,
    }
}

fn ends(levels: u32, count: u32) -> Option<Place>
    ensures { result ≡ (if count == levels then Some (places.Over levels) else None) }
{
    if count == levels {
        Some(Place::Over { levels })
    } else {
        None
    }
}

fn cuts_left(count: u32) -> Place
    ensures { result ≡ cuts_left count }
{
    if count == 0 {
        Place::Between { levels: 0 }
    } else {
        Place::Cutting { wanted: count - 1 }
    }
}

fn may_begin(levels: u32, level: u32) -> bool
    requires { levels < 7 }
    ensures { result ≡ may_begin levels level }
{
    level == levels + 1 && levels < 6
}

fn in_level(levels: u32, wanted: u64, node: &Node) -> Option<Place>
    requires wanted { wanted < 2 ^ 63 }
    requires count { levels < 7 }
    ensures { result ≡ in_level levels wanted node.now }
{
    match node {
        Node::Branch(_) => Some(Place::Inside {
            levels,
            wanted: wanted + 1,
        }),
        Node::Leaf(_) | Node::Same(_) => {
            if wanted == 0 {
                Some(Place::Between { levels: levels + 1 })
            } else {
                Some(Place::Inside {
                    levels,
                    wanted: wanted - 1,
                })
            }
        }
        Node::OpenEnd => None,
    }
}

fn in_loose(levels: u32, wanted: u64, seen: bool, node: &Node) -> Option<Place>
    requires { wanted < 2 ^ 63 }
    ensures { result ≡ in_loose levels wanted seen node.now }
{
    match node {
        Node::Branch(_) => Some(Place::Loose {
            levels,
            wanted: wanted + 1,
            seen,
        }),
        Node::Leaf(_) | Node::Same(_) => close(levels, wanted, seen, seen),
        Node::OpenEnd => close(levels, wanted, true, true),
    }
}

fn close(levels: u32, wanted: u64, seen: bool, may_end: bool) -> Option<Place>
    ensures { result ≡ close levels wanted seen may_end }
{
    if wanted > 0 {
        Some(Place::Loose {
            levels,
            wanted: wanted - 1,
            seen,
        })
    } else if may_end {
        Some(Place::After { levels })
    } else {
        None
    }
}
