ghost use Rattle.std.specs.Prelude.{◌≡◌, ◌<◌, length};
ghost use Rattle.cbm_gcr.specs.Code.{code, bits_of};
ghost use Rattle.cbm_sector.specs.Answer.{data_at, data_block, xor_of};

use crate::group::{block_bytes, group_at};
use crate::layout::{DATA, DATA_MARK, DATA_SUM};
use cbm_gcr::encode4;
use cbm_medium::codes::{BYTE_DECODING, DATA_CHECKSUM, NO_DATA_BLOCK};
use cbm_track::Track;

/// The checksum of bytes: their exclusive or.
pub(crate) fn xor(bytes: &[u8]) -> u8
    ensures { result ≡ xor_of bytes.now }
{
    let mut sum = 0;
    for byte in bytes {
        sum ^= *byte;
    }
    sum
}

/// What the data block at a place says.
#[tactic(auto, unfolding(crate::specs::Answer::data_at))]
pub(crate) fn data_at(track: &Track, place: u32) -> Result<[u8; 256], u8>
    requires { place < length track.now }
    ensures { result ≡ data_at track.now place }
{
    let Some(first) = group_at(track, place) else {
        return Err(BYTE_DECODING);
    };
    if first[0] != DATA_MARK {
        return Err(NO_DATA_BLOCK);
    }
    let Some(block) = block_bytes(track, place) else {
        return Err(BYTE_DECODING);
    };
    if xor(&block[DATA..DATA_SUM]) != block[DATA_SUM] {
        return Err(DATA_CHECKSUM);
    }
    let mut data = [0; 256];
    data.copy_from_slice(&block[DATA..DATA_SUM]);
    Ok(data)
}

/// The bytes of a data block: 7, the sector, its checksum, and two zeros.
pub(crate) fn data_block(bytes: &[u8; 256]) -> [u8; 260]
    ensures { result ≡ data_block bytes.now }
{
    let mut block = [0; 260];
    block[0] = DATA_MARK;
    block[DATA..DATA_SUM].copy_from_slice(bytes);
    block[DATA_SUM] = xor(bytes);
    block
}

/// The code of a data block.
pub(crate) fn coded_block(block: &[u8; 260]) -> [u8; 325]
    ensures { bits_of result ≡ code block.now }
{
    let mut coded = [0; 325];
    for i in 0..65 {
        let group = [
            block[4 * i],
            block[4 * i + 1],
            block[4 * i + 2],
            block[4 * i + 3],
        ];
        coded[5 * i..5 * i + 5].copy_from_slice(&encode4(&group));
    }
    coded
}
