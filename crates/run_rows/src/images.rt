//! The bytes of a pool device, of which few are not zeros: they are kept in pages, and read from a text that leaves out what
//! is zeros.

ghost use Rattle.std.specs.Prelude.{◌≤◌, length};

use std::alloc::{AllocError, Global};
use std::io;
use std::io::ErrorKind;

/// The length of a page, in bytes.
const PAGE: u64 = 1024;

/// More bytes than any device of a row has.
const MOST_BYTES: u64 = 16_777_216;

/// A page that is kept. All other bytes are zeros.
#[derive(Drop)]
struct Page {
    number: u64,
    bytes: Vec<u8>,
}

/// Bytes up to a length, of which the pages of zeros need not be kept.
#[derive(Drop)]
pub struct Image {
    pages: Vec<Page>,
    length: u64,
}

/// Puts a piece at a place of a page, where it fits.
fn put(page: &mut [u8], place: usize, piece: &[u8]) {
    let end = place.saturating_add(piece.len());
    if place <= end && end <= page.len() && end - place == piece.len() {
        page[place..end].copy_from_slice(piece);
    }
}

/// Whether all bytes are zeros.
fn are_zeros(bytes: &[u8]) -> bool {
    bytes.iter().all(|byte| *byte == 0)
}

/// The first place at which bytes differ from others, which are followed by zeros.
fn parting(bytes: &[u8], others: &[u8]) -> Option<u64> {
    for (place, byte) in bytes.iter().enumerate() {
        let other = match others.get(place) {
            Some(other) => *other,
            None => 0,
        };
        if other != *byte {
            return Some(place as u64);
        }
    }
    None
}

/// The lower of two places, where there are any.
fn lower(one: Option<u64>, other: Option<u64>) -> Option<u64> {
    match (one, other) {
        (Some(one), Some(other)) => Some(one.min(other)),
        (Some(one), None) => Some(one),
        (None, _) => other,
    }
}

impl Image {
    /// No bytes.
    pub fn new(alloc: Global) -> Self {
        Image {
            pages: Vec::new(alloc),
            length: 0,
        }
    }

    pub fn copy(&self, alloc: Global) -> Result<Image, AllocError> {
        let mut pages = Vec::with_capacity(alloc, self.pages.len())?;
        for page in &self.pages {
            pages.push(Page {
                number: page.number,
                bytes: Vec::from_slice(alloc, &page.bytes)?,
            })?;
        }
        Ok(Image {
            pages,
            length: self.length,
        })
    }

    pub fn length(&self) -> u64 {
        self.length
    }

    fn index_of(&self, number: u64) -> Option<usize> {
        self.pages.iter().position(|page| page.number == number)
    }

    /// The bytes of a page, none of them where they are zeros.
    fn page(&self, number: u64) -> &[u8] {
        for page in &self.pages {
            if page.number == number {
                return &page.bytes;
            }
        }
        &[]
    }

    /// Writes a piece that lies within a page.
    fn write_piece(&mut self, alloc: Global, at: u64, piece: &[u8]) -> Result<(), AllocError> {
        let number = at / PAGE;
        let index = match self.index_of(number) {
            Some(index) => index,
            None if are_zeros(piece) => return Ok(()),
            None => {
                let mut bytes = Vec::new(alloc);
                bytes.resize(PAGE as usize, 0)?;
                let index = self.pages.len();
                self.pages.push(Page { number, bytes })?;
                index
            }
        };
        if index < self.pages.len() {
            put(&mut self.pages[index].bytes, (at % PAGE) as usize, piece);
        }
        Ok(())
    }

    /// Writes over what stands from `at` on, and past the end.
    pub fn write(&mut self, alloc: Global, at: u64, bytes: &[u8]) -> Result<(), AllocError> {
        let end = at.saturating_add(bytes.len() as u64);
        for number in at / PAGE..(end / PAGE).saturating_add(1) {
            let from = at.max(number.saturating_mul(PAGE));
            let to = end.min(number.saturating_add(1).saturating_mul(PAGE));
            let (start, stop) = (
                from.saturating_sub(at) as usize,
                to.saturating_sub(at) as usize,
            );
            self.write_piece(alloc, from, bytes.get(start..stop).unwrap_or(&[]))?;
        }
        self.length = self.length.max(end);
        Ok(())
    }

    /// Writes a byte over a range, and from the end to the range where that lies behind it.
    pub fn tear(&mut self, alloc: Global, at: u64, len: u64, byte: u8) -> Result<(), AllocError> {
        let fill = [byte; 1024];
        let start = at.min(self.length);
        let end = at.saturating_add(len);
        for number in start / PAGE..(end / PAGE).saturating_add(1) {
            let from = start.max(number.saturating_mul(PAGE));
            let to = end.min(number.saturating_add(1).saturating_mul(PAGE));
            let count = to.saturating_sub(from) as usize;
            self.write_piece(alloc, from, fill.get(..count).unwrap_or(&[]))?;
        }
        self.length = self.length.max(end);
        Ok(())
    }

    /// Reads from `at` on, and answers how many of the bytes lie before the end.
    pub fn read(&self, at: u64, buf: &mut [u8]) -> usize
        ensures { result ≤ length buf.new }
    {
        buf.fill(0);
        let end = at.saturating_add(buf.len() as u64);
        for number in at / PAGE..(end / PAGE).saturating_add(1) {
            let from = at.max(number.saturating_mul(PAGE));
            let to = end.min(number.saturating_add(1).saturating_mul(PAGE));
            let start = (from % PAGE) as usize;
            let stop = start.saturating_add(to.saturating_sub(from) as usize);
            let bytes = self.page(number).get(start..stop).unwrap_or(&[]);
            put(buf, from.saturating_sub(at) as usize, bytes);
        }
        let before = self.length.saturating_sub(at) as usize;
        before.min(buf.len())
    }

    /// The first place at which it differs from another; where one ends earlier it is that end.
    pub fn parts_at(&self, other: &Image) -> Option<u64> {
        let mut least = None;
        for page in &self.pages {
            let start = page.number.saturating_mul(PAGE);
            let place = parting(&page.bytes, other.page(page.number));
            least = lower(least, place.map(|place| start.saturating_add(place)));
        }
        for page in &other.pages {
            let start = page.number.saturating_mul(PAGE);
            let place = parting(&page.bytes, self.page(page.number));
            least = lower(least, place.map(|place| start.saturating_add(place)));
        }
        if self.length != other.length {
            least = lower(least, Some(self.length.min(other.length)));
        }
        least
    }
}

fn digit(byte: u8) -> Option<u8> {
    match byte {
        b'0'..=b'9' => Some(byte - b'0'),
        b'a'..=b'f' => Some(byte - b'a' + 10),
        _ => None,
    }
}

/// The bytes that hexadecimal digits say, in pairs, whatever stands between the digits.
fn unhex(alloc: Global, text: &[u8]) -> Result<Vec<u8>, AllocError> {
    let mut said = Vec::new(alloc);
    let mut high = None;
    for byte in text {
        match (high, digit(*byte)) {
            (None, Some(digit)) => high = Some(digit),
            (Some(first), Some(digit)) => {
                said.push(first % 16 * 16 + digit % 16)?;
                high = None;
            }
            (_, None) => {}
        }
    }
    Ok(said)
}

/// A number of a text that is no place outside each device.
fn place_of(text: &str) -> io::Result<u64> {
    match text.parse::<u64>() {
        Ok(place) if place <= MOST_BYTES => Ok(place),
        _ => Err(ErrorKind::InvalidData.into()),
    }
}

/// A line `PLACE: DIGITS`, or `length LENGTH`.
fn put_line(alloc: Global, image: &mut Image, line: &str) -> io::Result<()> {
    let (name, said) = line.split_once(' ').unwrap_or((line, ""));
    if name == "length" {
        image.length = image.length.max(place_of(said)?);
        return Ok(());
    }
    let place = place_of(name.strip_suffix(':').unwrap_or(""))?;
    image.write(alloc, place, &unhex(alloc, said.as_bytes())?)?;
    Ok(())
}

/// The bytes that a text says: lines `PLACE: DIGITS`, which give the bytes from a place on in hexadecimal digits, and then
/// `length LENGTH`. All else is zeros.
pub fn image_of(alloc: Global, text: &str) -> io::Result<Image> {
    let mut image = Image::new(alloc);
    for line in text.lines() {
        put_line(alloc, &mut image, line)?;
    }
    Ok(image)
}
