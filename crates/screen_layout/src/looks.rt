ghost use Rattle.std.specs.Prelude.{◌≡◌, ◌+◌, ◌<◌, ◌≤◌, ◌||◌, ◌&&◌, not};
ghost use Rattle.screen_layout.specs.Placing.{within_look, or_outer, style_by, bit, colour_or};

use screen_cells::Style;
use screen_rows::Look;

/// An entry's own marks and colours in those of its group. HIGHLIGHT and LOWLIGHT replace each other.
pub fn look_within(outer: Look, own: Look) -> Look
    ensures { result ≡ within_look outer own }
{
    Look {
        highlight: stays(own.highlight, outer.highlight, own.lowlight),
        lowlight: stays(own.lowlight, outer.lowlight, own.highlight),
        reverse_video: either(outer.reverse_video, own.reverse_video),
        underline: either(outer.underline, own.underline),
        blink: either(outer.blink, own.blink),
        secure: either(outer.secure, own.secure),
        required: either(outer.required, own.required),
        full: either(outer.full, own.full),
        auto: either(outer.auto, own.auto),
        front: colour(own.front, outer.front),
        back: colour(own.back, outer.back),
    }
}

fn stays(own: bool, outer: bool, other: bool) -> bool
    ensures { result ≡ (own || (outer && not other)) }
{
    own || (outer && !other)
}

fn either(outer: bool, own: bool) -> bool
    ensures { result ≡ (outer || own) }
{
    outer || own
}

fn colour(own: Option<u64>, outer: Option<u64>) -> Option<u64>
    ensures { result ≡ or_outer own outer }
{
    match own {
        Some(colour) => Some(colour),
        None => outer,
    }
}

/// How an item of these marks and colours is shown.
pub fn style_from(look: Look) -> Style
    ensures { colour_or 7 look.front < 256 → colour_or 0 look.back < 256 → result ≡ style_by look }
{
    Style {
        marks: worth(look.highlight, 1)
            + worth(look.lowlight, 2)
            + worth(look.reverse_video, 4)
            + worth(look.underline, 8)
            + worth(look.blink, 16),
        front: colour_number(look.front, 7),
        back: colour_number(look.back, 0),
        secure: look.secure,
        required: look.required,
        full: look.full,
        auto: look.auto,
    }
}

fn worth(holds: bool, mark: u8) -> u8
    ensures value { result ≡ bit holds mark }
    ensures most { result ≤ mark }
{
    if holds { mark } else { 0 }
}

/// A colour of 0 to 7, or the standard one without a clause.
fn colour_number(colour: Option<u64>, standard: u8) -> u8
    ensures { colour_or standard colour < 256 → result ≡ colour_or standard colour }
{
    match colour {
        Some(colour) => colour.min(255) as u8,
        None => standard,
    }
}
