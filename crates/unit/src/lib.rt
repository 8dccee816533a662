// The settings of a picture call and its answers. What they mean, the unit that a call writes, the standard's reader
// and what it gives back of a unit stand in specs/. There is no code here.
#![tactic(auto)]

use refusals::Refusal;

#[derive(Clone, Copy)]
pub enum PictureKind {
    LowDelay,
    HighQuality,
}

#[derive(Clone, Copy)]
pub enum RateControl {
    Lossless,
    FixedQuantIndex(u32),
    PictureBytes(u32),
}

#[derive(Clone, Copy)]
pub struct Settings {
    pub kind: PictureKind,
    pub wavelet_index: u32,
    pub wavelet_index_ho: u32,
    pub dwt_depth: u32,
    pub dwt_depth_ho: u32,
    pub slices_x: u32,
    pub slices_y: u32,
    pub slice_prefix_bytes: u32,
    pub slice_size_scaler: u32,
    pub rate: RateControl,
    pub frame_width: u32,
    pub frame_height: u32,
    pub color_diff_format: u32,
    pub picture_coding_mode: u32,
    pub luma_excursion: u32,
    pub color_diff_excursion: u32,
    pub extended: bool,
    pub custom_matrix: bool,
    pub picture_number: u32,
    pub prev_unit_len: u32,
}

// What an accepted call tells of its unit.
#[derive(Clone, Copy)]
pub struct Coded {
    pub written: u32,
    pub cut_slices: u32,
    pub slice_size_scaler: u32,
}

// The answer of a picture call.
pub type Answer = Result<Coded, Refusal>;
