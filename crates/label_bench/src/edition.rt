use std::alloc::{AllocError, Global};

// An edition of 128 ids. The first ids are labels, each with some tags, and all ids but some are paths.
#[derive(Clone, Copy)]
pub struct Edition {
    pub goal: &'static [u8],
    pub labels: u8,
    // How many tags each label has: one for its own id and the ids behind it.
    pub tags: u8,
    // How many ids are no paths.
    pub pathless: u8,
}

const IDS: u8 = 128;

const LABEL: u8 = 0;

const PATH: u8 = 1;

const TAG: u8 = 3;

impl Edition {
    // The edition file, without operations and steps.
    pub fn file(self, heap: Global) -> Result<Vec<u8>, AllocError> {
        let mut file = Vec::new(heap);
        self.push_header(&mut file)?;
        file.extend_from_slice(b"\x01\x05label\x01\x04path\x01\x06stream\x02\x03tag")?;
        self.push_labels(&mut file)?;
        for id in self.pathless..IDS {
            file.extend_from_slice(&[PATH, id, 0])?;
        }
        file.extend_from_slice(self.goal)?;
        Ok(file)
    }

    fn push_header(self, file: &mut Vec<u8>) -> Result<(), AllocError> {
        file.extend_from_slice(b"EDP\x00\x01")?;
        file.extend_from_slice(&[IDS, TAG + 1, 0])?;
        file.extend_from_slice(&self.fact_count().to_be_bytes())?;
        let goal_length = (self.goal.len() & 0xffff) as u16;
        file.extend_from_slice(&goal_length.to_be_bytes())?;
        file.extend_from_slice(&[0, 0])
    }

    fn fact_count(self) -> u16 {
        let labels = u16::from(self.labels);
        let tags = u16::from(self.tags).wrapping_mul(labels);
        let paths = u16::from(IDS.saturating_sub(self.pathless));
        labels.wrapping_add(tags).wrapping_add(paths)
    }

    fn push_labels(self, file: &mut Vec<u8>) -> Result<(), AllocError> {
        for label in 0..self.labels {
            file.extend_from_slice(&[LABEL, label, 0])?;
            for tag in 0..self.tags {
                let id = label.wrapping_add(tag) % IDS;
                file.extend_from_slice(&[TAG, label, id])?;
            }
        }
        Ok(())
    }
}
