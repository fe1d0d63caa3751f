//! Colours: those of the page, and those of designs, which the colour-blind tell apart (after Okabe and Ito).

ghost use Rattle.std.specs.Prelude.{◌≡◌};
ghost use Rattle.clr_drawing.specs.Palette.{colours_by, colours_of};

use clr_svg::Colour;

/// The page.
pub const PAPER: Colour = Colour {
    red: 0xff,
    green: 0xff,
    blue: 0xff,
};
/// The ground of the map.
pub const GROUND: Colour = Colour {
    red: 0xfb,
    green: 0xfa,
    blue: 0xf6,
};
/// Lines at the ticks.
pub const GRID: Colour = Colour {
    red: 0xe9,
    green: 0xe6,
    blue: 0xdd,
};
/// What is read first.
pub const INK: Colour = Colour {
    red: 0x1f,
    green: 0x29,
    blue: 0x33,
};
/// What is read second.
pub const SOFT: Colour = Colour {
    red: 0x66,
    green: 0x72,
    blue: 0x7f,
};
/// Frames.
pub const FAINT: Colour = Colour {
    red: 0xcf,
    green: 0xd5,
    blue: 0xda,
};
/// Lines of the root.
pub const PLAIN: Colour = Colour {
    red: 0xb4,
    green: 0xbc,
    blue: 0xc4,
};
/// Signs of the root.
pub const SIGN: Colour = Colour {
    red: 0x98,
    green: 0xa2,
    blue: 0xac,
};
/// What fails.
pub const ALARM: Colour = Colour {
    red: 0xc1,
    green: 0x12,
    blue: 0x1f,
};
/// What is cleared.
pub const CLEAR: Colour = Colour {
    red: 0x1a,
    green: 0x7f,
    blue: 0x4b,
};
/// What couldn't be looked at.
pub const CAUTION: Colour = Colour {
    red: 0x8a,
    green: 0x5a,
    blue: 0x00,
};
/// Behind what the cause names.
pub const HALO: Colour = Colour {
    red: 0xfd,
    green: 0xdc,
    blue: 0x9a,
};

/// The colours of a design: of its lines and signs, of its labels (with a contrast of 4.6 to 1 on white), of the ground within its frame,
/// and of its lines where it has no part in a cause.
#[derive(Clone, Copy)]
pub struct DesignColours {
    pub line: Colour,
    pub label: Colour,
    pub within: Colour,
    pub pale: Colour,
}

fn colours_by(line: Colour, label: Colour, within: Colour, pale: Colour) -> DesignColours
    ensures { result ≡ colours_by line label within pale }
{
    DesignColours {
        line,
        label,
        within,
        pale,
    }
}

/// Returns the colours of the design of a number, counted from 0. Behind eight designs they begin anew.
pub fn design_colours(number: usize) -> DesignColours
    ensures { result ≡ colours_of number }
{
    match number % 8 {
        0 => colours_by(
            Colour::new(0x00, 0x72, 0xb2),
            Colour::new(0x00, 0x72, 0xb2),
            Colour::new(0xe4, 0xee, 0xf0),
            Colour::new(0x94, 0xc4, 0xdf),
        ),
        1 => colours_by(
            Colour::new(0xd5, 0x5e, 0x00),
            Colour::new(0xbc, 0x53, 0x00),
            Colour::new(0xf8, 0xec, 0xe0),
            Colour::new(0xed, 0xbb, 0x94),
        ),
        2 => colours_by(
            Colour::new(0x00, 0x9e, 0x73),
            Colour::new(0x00, 0x83, 0x5f),
            Colour::new(0xe4, 0xf2, 0xea),
            Colour::new(0x94, 0xd6, 0xc4),
        ),
        3 => colours_by(
            Colour::new(0xcc, 0x79, 0xa7),
            Colour::new(0x9f, 0x5e, 0x82),
            Colour::new(0xf7, 0xee, 0xef),
            Colour::new(0xea, 0xc7, 0xda),
        ),
        4 => colours_by(
            Colour::new(0x56, 0xb4, 0xe9),
            Colour::new(0x37, 0x74, 0x97),
            Colour::new(0xec, 0xf4, 0xf5),
            Colour::new(0xb8, 0xe0, 0xf6),
        ),
        5 => colours_by(
            Colour::new(0x8a, 0x5a, 0x00),
            Colour::new(0x8a, 0x5a, 0x00),
            Colour::new(0xf1, 0xec, 0xe0),
            Colour::new(0xce, 0xba, 0x94),
        ),
        6 => colours_by(
            Colour::new(0x7b, 0x4f, 0xb5),
            Colour::new(0x7b, 0x4f, 0xb5),
            Colour::new(0xef, 0xeb, 0xf0),
            Colour::new(0xc8, 0xb5, 0xe0),
        ),
        _ => colours_by(
            Colour::new(0x2f, 0x6f, 0x4f),
            Colour::new(0x2f, 0x6f, 0x4f),
            Colour::new(0xe9, 0xed, 0xe7),
            Colour::new(0xa8, 0xc3, 0xb5),
        ),
    }
}
