//! What a run needs of the system: images by their names.

ghost use Rattle.std.specs.Prelude.{◌≡◌, ◌<◌, ℕ, List, IfOk, nat_lt};
ghost use Rattle.luks_io.specs.Devices.{counted};
ghost use Rattle.luks_audit_run.specs.Host.{OpensAs, Stored};

use luks_io::source::Source;

/// Why an image was not opened.
#[derive(Clone, Copy)]
pub enum ImageFault {
    /// There is no such image, or it may not be read, or it is refused.
    NotOpened,
    /// Memory ran out.
    Memory,
}

/// Opens images by their names.
pub trait Images {
    /// An open image.
    type Image: Source + Drop;

    /// What is under a name. No run changes it.
    ghost stored: { Self → List ℕ → Stored };

    /// How many of the closed images there are of which a read failed.
    ghost failures: { Self → ℕ };

    /// Opens the image of this name.
    fn open(&mut self, name: &str) -> Result<Self::Image, ImageFault>
        ensures kept { stored self.new ≡ stored self.old }
        ensures failures { failures self.new ≡ failures self.old }
        ensures image { OpensAs Self.Image.to_come (stored self.old name.now) result }
        ensures unread { IfOk result (λ image. (Self.Image.counts image).failures ≡ 0) };

    /// Takes an image back, after its last read, and counts it if one of its reads failed.
    fn close(&mut self, image: Self::Image)
        ensures kept { stored self.new ≡ stored self.old }
        ensures failures { failures self.new
            ≡ counted (nat_lt 0 (Self.Image.counts image).failures) (failures self.old) };
}
