//! Why a file of pages is not opened.

use thiserror::Error;

/// Why a file of pages is not opened.
#[derive(Clone, Copy, Debug, Drop, Error, PartialEq, Eq)]
pub enum OpenFault {
    #[error("blank store")]
    Blank,
    #[error("foreign store")]
    Foreign,
    #[error("damaged page {page} offset {offset}")]
    Damaged { page: u32, offset: u32 },
    #[error("the device failed")]
    SiteFault,
    #[error("out of memory")]
    Memory,
}
