// SliceGroup::read.
use super::say::{Hex, front};
use bits::BitReader;
use pps::{Geometry, SliceGroup, SliceGroups, SliceRect};
use std::{fmt, io};

// The kind of groups, and of type 2 the first rectangle.
#[derive(Clone, Copy)]
struct Kind(SliceGroups);

impl fmt::Display for Kind {
    fn fmt<W: fmt::Write>(&self, f: &mut fmt::Formatter<W>) -> fmt::Result {
        let SliceRect {
            top_left,
            bottom_right,
        } = self.0.rectangles[0];
        match self.0.group {
            SliceGroup::Interleaved => write!(f, "interleaved"),
            SliceGroup::Dispersed => write!(f, "dispersed"),
            SliceGroup::ForegroundAndLeftover => {
                write!(f, "rectangle {top_left} to {bottom_right}")
            },
            SliceGroup::Changing { .. } => write!(f, "changing"),
            SliceGroup::ExplicitAssignment { .. } => write!(f, "ids"),
        }
    }
}

fn picture(width: u32, size: u32) -> Geometry {
    Geometry {
        pic_width_in_mbs: width,
        pic_size_in_map_units: size,
    }
}

fn groups(rt: &impl Print, s: &[u8], n: u32, picture: Geometry) -> io::Result<()> {
    let mut room = [0xAA; 8];
    let mut reader = BitReader::new();
    print!(rt;
        "groups width {}, size {}, n {n}, bytes{}: ",
        picture.pic_width_in_mbs,
        picture.pic_size_in_map_units,
        Hex(s)
    )?;
    match SliceGroup::read(s, &mut reader, n, picture, &mut room) {
        Ok(r) => {
            let ids = Hex(front(&room, r.ids));
            println!(rt; "0, {}{ids}, position {}", Kind(r.groups), reader.at.0)
        },
        Err(refusal) => println!(rt; "{}", refusal.number()),
    }
}

pub fn cases(rt: &impl Print) -> io::Result<()> {
    groups(rt, b"\x62\x46\x80", 1, picture(4, 12))?;
    groups(rt, b"\x62\x47\x00", 1, picture(4, 12))?;
    groups(rt, b"\x39\x06\x80", 2, picture(2, 4))?;
    groups(rt, b"\x40", 1, picture(1, 36864))?;
    groups(rt, b"\x40", 1, picture(1, 36865))
}
