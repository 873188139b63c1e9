use itoa::{Buffer, Integer};
use rm_types::NoMemory;
use std::alloc::Global;

/// A length or a place in tenths of a pixel.
pub(crate) type Tenths = u64;

/// What is written of a picture so far.
///
/// Each function that writes adds its text at the end. Where it answers `NoMemory`, some beginning of the text may have been
/// added, and the picture is to be given up.
#[derive(Drop)]
pub(crate) struct Svg {
    bytes: Vec<u8>,
}

/// A box of a picture: its upper left corner, and its size.
#[derive(Clone, Copy)]
pub(crate) struct Frame {
    pub(crate) x: Tenths,
    pub(crate) y: Tenths,
    pub(crate) width: Tenths,
    pub(crate) height: Tenths,
}

/// At which end of a text its place is.
#[derive(Clone, Copy)]
pub(crate) enum Anchor {
    Start,
    Middle,
    End,
}

impl Svg {
    /// The empty text. It takes no memory.
    pub(crate) fn new(alloc: Global) -> Svg {
        Svg {
            bytes: Vec::new(alloc),
        }
    }

    /// Hands the bytes over, without a copy.
    pub(crate) fn into_bytes(self) -> Vec<u8> {
        self.bytes
    }

    /// The bytes.
    pub(crate) fn bytes(&self) -> &[u8] {
        self.bytes.as_slice()
    }

    /// Writes markup as it is.
    pub(crate) fn markup(&mut self, markup: &[u8]) -> Result<(), NoMemory> {
        self.bytes.extend_from_slice(markup)?;
        Ok(())
    }

    /// Writes a number in decimal.
    pub(crate) fn number<N: Integer>(&mut self, number: N) -> Result<(), NoMemory> {
        let mut buffer = Buffer::new();
        self.markup(buffer.format(number).as_bytes())
    }

    /// Writes a text, in which no byte is taken for markup.
    pub(crate) fn text(&mut self, text: &[u8]) -> Result<(), NoMemory> {
        'bytes: for byte in text {
            match *byte {
                b'&' => self.markup(b"&amp;")?,
                b'<' => self.markup(b"&lt;")?,
                b'>' => self.markup(b"&gt;")?,
                b'"' => self.markup(b"&quot;")?,
                other => self.bytes.push(other)?,
            }
        }
        Ok(())
    }

    /// Writes an attribute whose value is a length.
    pub(crate) fn length(&mut self, name: &[u8], length: Tenths) -> Result<(), NoMemory> {
        self.markup(b" ")?;
        self.markup(name)?;
        self.markup(b"=\"")?;
        self.number(length / 10)?;
        if length % 10 != 0 {
            self.markup(b".")?;
            self.number(length % 10)?;
        }
        self.markup(b"\"")
    }

    /// Begins a box, whose attributes may go on.
    fn open_box(&mut self, frame: Frame) -> Result<(), NoMemory> {
        self.markup(b"<rect")?;
        self.length(b"x", frame.x)?;
        self.length(b"y", frame.y)?;
        self.length(b"width", frame.width)?;
        self.length(b"height", frame.height)
    }

    /// Draws a box in a style.
    pub(crate) fn rectangle(&mut self, frame: Frame, style: &[u8]) -> Result<(), NoMemory> {
        self.open_box(frame)?;
        self.markup(b" ")?;
        self.markup(style)?;
        self.markup(b"/>\n")
    }

    /// Draws a box in a style, with a name that is told where it is pointed at.
    pub(crate) fn named_rectangle(
        &mut self,
        frame: Frame,
        style: &[u8],
        name: &[u8],
    ) -> Result<(), NoMemory> {
        self.open_box(frame)?;
        self.markup(b" ")?;
        self.markup(style)?;
        self.markup(b"><title>")?;
        self.text(name)?;
        self.markup(b"</title></rect>\n")
    }

    /// Draws a straight line in a style.
    pub(crate) fn line(
        &mut self,
        from: (Tenths, Tenths),
        to: (Tenths, Tenths),
        style: &[u8],
    ) -> Result<(), NoMemory> {
        self.markup(b"<line")?;
        self.length(b"x1", from.0)?;
        self.length(b"y1", from.1)?;
        self.length(b"x2", to.0)?;
        self.length(b"y2", to.1)?;
        self.markup(b" ")?;
        self.markup(style)?;
        self.markup(b"/>\n")
    }

    /// Draws a disk in a style.
    pub(crate) fn disk(
        &mut self,
        x: Tenths,
        y: Tenths,
        radius: Tenths,
        style: &[u8],
    ) -> Result<(), NoMemory> {
        self.markup(b"<circle")?;
        self.length(b"cx", x)?;
        self.length(b"cy", y)?;
        self.length(b"r", radius)?;
        self.markup(b" ")?;
        self.markup(style)?;
        self.markup(b"/>\n")
    }

    /// Begins a text at a place in a style; `end_label` ends it.
    pub(crate) fn begin_label(
        &mut self,
        x: Tenths,
        y: Tenths,
        anchor: Anchor,
        style: &[u8],
    ) -> Result<(), NoMemory> {
        self.markup(b"<text")?;
        self.length(b"x", x)?;
        self.length(b"y", y)?;
        match anchor {
            Anchor::Start => {}
            Anchor::Middle => self.markup(b" text-anchor=\"middle\"")?,
            Anchor::End => self.markup(b" text-anchor=\"end\"")?,
        }
        self.markup(b" ")?;
        self.markup(style)?;
        self.markup(b">")
    }

    /// Ends a text that was begun.
    pub(crate) fn end_label(&mut self) -> Result<(), NoMemory> {
        self.markup(b"</text>\n")
    }

    /// Draws a text at a place in a style.
    pub(crate) fn label(
        &mut self,
        x: Tenths,
        y: Tenths,
        anchor: Anchor,
        style: &[u8],
        text: &[u8],
    ) -> Result<(), NoMemory> {
        self.begin_label(x, y, anchor, style)?;
        self.text(text)?;
        self.end_label()
    }
}

/// How wide a text of so many characters is at most, where each takes this width.
pub(crate) fn width_of(characters: usize, each: Tenths) -> Tenths {
    each.saturating_mul(characters as u64)
}
