// What the analysis of a component is told: its sides and offset, and the transform.

// The sides of a component, its padded sides, and its sample offset.
#[derive(Clone, Copy)]
pub struct Component {
    pub w: usize,
    pub h: usize,
    pub pw: usize,
    pub ph: usize,
    pub offset: u16,
}

// The horizontal-only depth, the depth, and the wavelet indices of rows and columns.
#[derive(Clone, Copy)]
pub struct Transform {
    pub k: u32,
    pub d: u32,
    pub ih: usize,
    pub iv: usize,
}
