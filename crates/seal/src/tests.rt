//! Tests with the published roots of RFC 9162's tree, with openings of small trees, and with a sealed docket whose
//! roots were made by another program.

use crate::{Tree, leaf_hash, opens, published, root, salt};
use sha2::{Digest, Sha256};
use std::alloc::Global;
use std::process::Abort;
use std::test::Fail;

// The leaves of Certificate Transparency's test vectors. Beside each leaf stands the root of the tree of all
// earlier leaves.
const PUBLISHED_ROOTS: [(&[u8], &str); 9] = [
    (
        b"",
        "e3b0c44298fc1c149afbf4c8996fb92427ae41e4649b934ca495991b7852b855",
    ),
    (
        b"\x00",
        "6e340b9cffb37a989ca544e6bb780a2c78901d3fb33738768511a30617afa01d",
    ),
    (
        b"\x10",
        "fac54203e7cc696cf0dfcb42c92a1d9dbaf70ad9e621f4bd8d98662f00e3c125",
    ),
    (
        b"\x20\x21",
        "aeb6bcfe274b70a14fb067a5e5578264db0fa9b51af5e0ba159158f329e06e77",
    ),
    (
        b"\x30\x31",
        "d37ee418976dd95753c1c73862b9398fa2a2cf9b4ff0fdfe8b30cd95209614b7",
    ),
    (
        b"\x40\x41\x42\x43",
        "4e3bbb1f7b478dcfe71fb631631519a3bca12c9aefca1612bfce4c13a86264d4",
    ),
    (
        b"\x50\x51\x52\x53\x54\x55\x56\x57",
        "76e67dadbcdf1e10e1b74ddc608abd2f98dfb16fbce75277b5232a127f2087ef",
    ),
    (
        b"\x60\x61\x62\x63\x64\x65\x66\x67\x68\x69\x6a\x6b\x6c\x6d\x6e\x6f",
        "ddb89be403809e325750d3d263cd78929c2942b7942a34b77e122c9594a74c8c",
    ),
    (
        b"",
        "5dc9da79a70659a9ad559cb701ded9a2ab9d823aad2f4960cfe370eff4604328",
    ),
];

// The root of the leaves "0" to "999", by the recursion of RFC 9162.
const ROOT_OF_A_THOUSAND: &str = "638afa98022925bacfddadb15ef22fd0199c1ac99c2973b6158243d13fce05c2";

// The sealed texts of the members of examples/nrmp.csv: before the match, and after the match with
// examples/nrmp-sheet.csv.
const SEALED_TEXTS: [(&[u8], &[u8]); 8] = [
    (b"Q,Mercy,2\nP,Mercy,Darrius,Joseph\n", b"F,Mercy,0,2\n"),
    (
        b"Q,City,2\nP,City,Darrius,Arthur,Sunny,Latha,Joseph\n",
        b"F,City,2,2\nM,Arthur,City\nM,Darrius,City\n",
    ),
    (
        b"Q,General,2\nP,General,Darrius,Arthur,Joseph,Latha\n",
        b"F,General,2,2\nM,Joseph,General\nM,Latha,General\n",
    ),
    (
        b"R,Arthur,City\n",
        b"M,Arthur,City\nArthur,City,1,matched,,,\n",
    ),
    (
        b"R,Sunny,City,Mercy\n",
        b"U,Sunny\nSunny,City,1,full,3,2,2\nSunny,Mercy,2,unranked,,,\n",
    ),
    (
        b"R,Joseph,City,General,Mercy\n",
        b"M,Joseph,General\nJoseph,City,1,full,5,2,2\nJoseph,General,2,matched,,,\nJoseph,Mercy,3,better,,,\n",
    ),
    (
        b"R,Latha,Mercy,City,General\n",
        b"M,Latha,General\nLatha,Mercy,1,unranked,,,\nLatha,City,2,full,4,2,2\nLatha,General,3,matched,,,\n",
    ),
    (
        b"R,Darrius,City,Mercy,General\n",
        b"M,Darrius,City\nDarrius,City,1,matched,,,\nDarrius,Mercy,2,better,,,\nDarrius,General,3,better,,,\n",
    ),
];

// A digest in hexadecimal.
fn hexadecimal(alloc: Global, digest: &[u8; 32]) -> Result<String, Fail> {
    let mut text = String::new(alloc);
    for byte in digest {
        text.push_str(&format!(in alloc; "{byte:02x}")?)?;
    }
    Ok(text)
}

// The hash of a leaf without salt, as in Certificate Transparency.
fn plain_leaf_hash(text: &[u8]) -> [u8; 32] {
    let mut hasher = Sha256::new();
    hasher.update(&[0u8][..]);
    hasher.update(text);
    hasher.finalize()
}

// Tests that the root of these hashes is `wanted_root`, computed at once and in a tree that is stored whole. Each leaf
// has to open the root from its own place and by its own path only.
fn opens_each<R: Abort>(
    rt: &R,
    alloc: Global,
    hashes: &[[u8; 32]],
    wanted_root: &str,
) -> Result<(), Fail> {
    let root_hash = root(alloc, hashes)?;
    assert_eq!(rt; hexadecimal(alloc, &root_hash)?.as_str(), wanted_root);
    let published_root = published(hashes.len() as u64, &root_hash);
    let tree = Tree::new(alloc, hashes)?;
    assert_eq!(rt; tree.root(), root_hash);
    for (index, hash) in hashes.iter().enumerate() {
        let mut path = tree.opening(alloc, index)?;
        assert!(rt; opens(&published_root, hashes.len(), index, hash, &path));
        assert!(rt; !opens(&published_root, hashes.len(), index + 1, hash, &path));
        assert!(rt;
            !opens(&published_root, hashes.len(), index, &root_hash, &path) || hashes.len() == 1
        );
        path.push(root_hash)?;
        assert!(rt; !opens(&published_root, hashes.len(), index, hash, &path));
        if path.len() > 1 {
            assert!(rt; !opens(&published_root, hashes.len(), index, hash, &path[1..]));
        }
    }
    Ok(())
}

#[test]
fn roots_are_the_published_ones(rt: HostRuntime) -> Result<(), Fail> {
    let mut hashes = Vec::new(rt.alloc());
    for (text, wanted_root) in PUBLISHED_ROOTS {
        opens_each(&rt, rt.alloc(), &hashes, wanted_root)?;
        hashes.push(plain_leaf_hash(text))?;
    }
    Ok(())
}

#[test]
fn a_thousand_leaves(rt: HostRuntime) -> Result<(), Fail> {
    let mut hashes = Vec::new(rt.alloc());
    for number in 0..1_000 {
        hashes.push(plain_leaf_hash(format!(in rt.alloc(); "{number}")?.as_bytes()))?;
    }
    opens_each(&rt, rt.alloc(), &hashes, ROOT_OF_A_THOUSAND)
}

#[test]
fn a_docket_is_sealed(rt: HostRuntime) -> Result<(), Fail> {
    let mut secret = [0u8; 32];
    secret[31] = 1;
    let (mut lists, mut results) = (Vec::new(rt.alloc()), Vec::new(rt.alloc()));
    for (index, (list, result)) in SEALED_TEXTS.iter().enumerate() {
        lists.push(leaf_hash(&salt(&secret, b'L', index as u64), list))?;
        results.push(leaf_hash(&salt(&secret, b'R', index as u64), result))?;
    }
    opens_each(
        &rt,
        rt.alloc(),
        &lists,
        "5a605f8a7aba83c9c6d89e6fe18620c65b6c67cd25ca8ecbda6bf96f03a3235e",
    )?;
    opens_each(
        &rt,
        rt.alloc(),
        &results,
        "c52943499363d152fc194eee6eff38789f5bb3126601424c8b1a63043ae278b0",
    )?;
    let salt_of_leaf_4 = hexadecimal(rt.alloc(), &salt(&secret, b'L', 4))?;
    assert_eq!(rt;
        salt_of_leaf_4.as_str(),
        "9191b951097bbfa6354e1af753473f616daad352c00c681dd5c7b0de245ef9dc"
    );
    Ok(())
}
